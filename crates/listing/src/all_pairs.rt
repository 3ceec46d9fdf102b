// The routes between the ASes of a store, by the board's calls.
ghost use Rattle.std.specs.Prelude.{◌≡◌, ◌*◌, ◌≤◌, ◌≢◌, List, [], ◌++◌, length, IfOk, OnOk};
ghost use Rattle.network.specs.Rosters.{Among};
ghost use Rattle.measure.specs.Delay.{delay as by_delay};
ghost use Rattle.legality.specs.Networks.{net_of};
ghost use Rattle.routes.specs.Routes.{Holds};
ghost use Rattle.listing.specs.declared.types.Row.{Row as RowT};
ghost use Rattle.listing.specs.Rows.{RowRight, RowsRight, pairs_of, pairs_from};
ghost use Rattle.listing.specs.Settled.{AllSettled};

use crate::types::{Route, Row};
use measure::delay::Delay;
use network::stores::Store;
use routes::send;
use settle::settle;
use settle::types::Work;
use std::alloc::{AllocError, Global};
use stores::grid::MOST_ASES;
use table::types::{RouteRefusal, Table};

// Settles every one of the ASes.
pub fn settle_all<S: Store>(
    store: &S,
    table: &mut Table<'_, '_, u32>,
    work: &mut Work<'_, '_, u32>,
    ases: &[u32],
) -> Result<(), RouteRefusal>
    requires all { ases.now ≡ S.roster store.now }
    requires few { length ases.now ≤ 24 }
    requires slots { 2 * length ases.now ≤ length work.old.waiting.now }
    requires numbers { 2 * length ases.now ≤ length work.old.numbers.now }
    requires holds { Holds by_delay (S.roster store.now) (S.book store.now) [] table.old.entries.now table.old.marks.now }
    ensures { AllSettled (S.roster store.now) (S.book store.now) ases.now table.new }
{
    for destination in ases {
        settle::<S, Delay>(store, table, work, *destination)?;
    }
    Ok(())
}

// A store, the table of it and its ASes. That each AS is settled stands in the clauses: a ghost field was tried, but the fact holds
// paths, so that it is no proposition, and truncated it gives no row.
#[derive(Drop)]
pub struct AllPairs<'a, 'e, 'm, S: Store> {
    pub store: &'a S,
    pub table: &'a Table<'e, 'm, u32>,
    pub ases: &'a [u32],
}

impl<S: Store> AllPairs<'_, '_, '_, S> {
    // The route from one AS to another, if there is a legal path.
    fn route(&self, source: u32, destination: u32) -> Option<Route>
        requires settled { AllSettled (S.roster self.now.store.now) (S.book self.now.store.now) self.now.ases.now self.now.table.now }
        requires apart { source ≢ destination }
        requires source { Among source self.now.ases.now }
        requires destination { Among destination self.now.ases.now }
        ensures { RowRight (net_of (S.roster self.now.store.now) (S.book self.now.store.now)) source destination (record { source = source; destination = destination; route = result }) }
    {
        // Lent to `send`, which writes the path there: it passes no AS twice.
        let mut list = [0u32; MOST_ASES];
        let (delay, links) = send::<S, Delay>(
            self.store,
            self.table,
            source,
            destination,
            &mut list,
        ).ok()?;
        Some(Route {
            next: list[1],
            links,
            delay,
        })
    }

    // Adds the rows of one AS with all others. (One chain of closures over all pairs would be no plainer: each push may be refused.)
    fn add_rows(&self, rows: &mut Vec<Row>, source: u32) -> Result<(), AllocError>
        requires settled { AllSettled (S.roster self.now.store.now) (S.book self.now.store.now) self.now.ases.now self.now.table.now }
        requires source { Among source self.now.ases.now }
        ensures { OnOk result ((more : List RowT) × (rows.new.items ≡ rows.old.items ++ more) × RowsRight (net_of (S.roster self.now.store.now) (S.book self.now.store.now)) (pairs_of source self.now.ases.now) more) }
    {
        for destination in self.ases {
            if *destination != source {
                rows.push(Row {
                    source,
                    destination: *destination,
                    route: self.route(source, *destination),
                })?;
            }
        }
        Ok(())
    }

    // The rows of all pairs of different ASes.
    pub fn rows(&self, heap: Global) -> Result<Vec<Row>, AllocError>
        requires { AllSettled (S.roster self.now.store.now) (S.book self.now.store.now) self.now.ases.now self.now.table.now }
        ensures { IfOk result (λ rows. RowsRight (net_of (S.roster self.now.store.now) (S.book self.now.store.now)) (pairs_from self.now.ases.now self.now.ases.now) rows.items) }
    {
        let mut rows = Vec::new(heap);
        for source in self.ases {
            self.add_rows(&mut rows, *source)?;
        }
        Ok(rows)
    }
}
