// What the table memory answers about routes. It may hold anything: each answer is pinned for spoiled memory too.
#![tactic(auto)]

ghost use Rattle.std.specs.Prelude.{◌≡◌, length, IfOk};
ghost use Rattle.std.specs.Result.{result_map_both};
ghost use Rattle.legality.specs.Networks.{net_of};
ghost use Rattle.routes.specs.Theorems.{HopsRight, SendsRight, SendsFew};
ghost use Rattle.routes.specs.Columns.{Stands};
ghost use Rattle.routes.specs.Raw.{judged, hop_answer, sending, send_answer, send_list};

mod column;

use column::{Column, Stop};
use legality::types::Class;
use measure::Measure;
use network::stores::Store;
use table::types::{RouteRefusal, Table};

// The column of the destination, and the stop at which the way to it starts. Each AS is looked up by a `let .. else` that refuses it
// (a rule). Source and destination are two numbers, of which a refusal names one: a struct would only wrap them. Store and table are handed
// to each call (a rule).
#[tactic(auto, using(crate::proofs::Known::place_known, crate::proofs::Known::place_within, table::proofs::Cells::not_small))]
fn set_out<'a, S: Store, M: Measure>(
    store: &'a S,
    table: &'a Table<'_, '_, M::Cost>,
    source: u32,
    class: Class,
    destination: u32,
) -> Result<(Column<'a, S, M>, Stop), RouteRefusal>
    ensures is { result_map_both (λ r. (r.1.place, r.0.to)) (λ x. x) result ≡ judged (S.roster store.now) table.now.entries.now table.now.marks.now source destination }
    ensures store { IfOk result (λ r. r.0.store.now ≡ store.now) }
    ensures entries { IfOk result (λ r. r.0.entries.now ≡ table.now.entries.now) }
    ensures class { IfOk result (λ r. r.1.class ≡ class) }
    ensures stands { IfOk result (λ r. Stands r.0 r.1) }
{
    if table.is_small(store) {
        return Err(RouteRefusal::TableTooSmall);
    }
    let Some(place) = store.place_of(source) else {
        return Err(RouteRefusal::UnknownAs);
    };
    let Some(to) = store.place_of(destination) else {
        return Err(RouteRefusal::UnknownAs);
    };
    // A mark is a byte of the caller's memory (a rule): 1 where settled, anything else where not.
    if table.marks[to] != 1 {
        return Err(RouteRefusal::NotSettled);
    }
    let column = Column {
        store,
        entries: table.entries,
        to,
    };
    let start = Stop {
        number: source,
        place,
        class,
    };
    Ok((column, start))
}

// The next AS from `source` to `destination` for traffic of a class, by the table; none at the destination.
pub fn hop<S: Store, M: Measure>(
    store: &S,
    table: &Table<'_, '_, M::Cost>,
    source: u32,
    class: Class,
    destination: u32,
) -> Result<Option<u32>, RouteRefusal>
    ensures { result ≡ hop_answer M.measure (net_of (S.roster store.now) (S.book store.now)) table.now.entries.now table.now.marks.now source class destination }
{
    let (column, start) = set_out::<S, M>(store, table, source, class, destination)?;
    if start.place == column.to {
        return Ok(None);
    }
    let place = column
        .entry(start)
        .next_place()
        .ok_or(RouteRefusal::NoPath)?;
    let next = store.as_at(place).ok_or(RouteRefusal::FalseEntry)?;
    Ok(Some(next))
}

// The path from `source` to `destination` by the table, written to the front of the list; answers its cost and how many links it has.
pub fn send<S: Store, M: Measure>(
    store: &S,
    table: &Table<'_, '_, M::Cost>,
    source: u32,
    destination: u32,
    list: &mut [u32],
) -> Result<(M::Cost, usize), RouteRefusal>
    ensures answer { result ≡ send_answer (sending M.measure (net_of (S.roster store.now) (S.book store.now)) table.now.entries.now table.now.marks.now source destination (length list.old)) }
    ensures list { list.new ≡ send_list list.old (sending M.measure (net_of (S.roster store.now) (S.book store.now)) table.now.entries.now table.now.marks.now source destination (length list.old)) }
{
    let (column, start) = set_out::<S, M>(store, table, source, Class::Home, destination)?;
    if column.is_shut(start) {
        return Err(RouteRefusal::NoPath);
    }
    let links = column.count_links(start)?;
    if list.len() <= links {
        return Err(RouteRefusal::ListTooShort);
    }
    column.write_walk(start, &mut list[..=links]);
    Ok((column.owed(start), links))
}

// Where each marked column has the cheapest legal paths, hop answers what it must: the smallest next AS of a cheapest path that is
// open to the class, or that there is none, and meets no false entry.
#[tactic(auto, using(crate::proofs::Answered::hops))]
pub fn hops_right<M: Measure>()
    ensures { HopsRight M.measure }
{}

// Where each marked column has the cheapest legal paths, send answers what it must: the path that goes by the smallest next ASes of
// cheapest paths, its cost and its links, or that there is none, and meets no false entry and no long walk.
#[tactic(auto, using(crate::proofs::Answered::sends))]
pub fn sends_right<M: Measure>()
    ensures { SendsRight M.measure }
{}

// Whatever the memory holds, send writes no more than 2 · n ASes.
#[tactic(auto, using(crate::proofs::Few::sends_few))]
pub fn sends_few<M: Measure>()
    ensures { SendsFew M.measure }
{}
