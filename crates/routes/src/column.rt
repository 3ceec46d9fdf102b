// A column of the table memory, and the stops on the way to its AS.
ghost use Rattle.std.specs.Prelude.{◌*◌, ◌<◌, ◌≤◌, length};

use legality::types::Class;
use measure::Measure;
use network::stores::Store;
use table::types::Entry;

mod entries;
mod walk;

// The entries to the AS at the place `to`, in a table memory that is large enough for the ASes of a store.
#[derive(Drop)]
pub struct Column<'a, S: Store, M: Measure> {
    pub store: &'a S,
    pub entries: &'a [Entry<M::Cost>],
    pub to: usize,
    ghost known: { to < length (S.roster store.now) },
    ghost enough: { 2 * length (S.roster store.now) * length (S.roster store.now) ≤ length entries.now },
}

// A stop on the way: an AS, its place in the roster, and the class of the traffic from there on. That it stands in the column's roster is
// asked by the column's methods: a stop is copied from step to step, and one struct of both would copy the column with it.
#[derive(Clone, Copy)]
pub struct Stop {
    pub number: u32,
    pub place: usize,
    pub class: Class,
}
