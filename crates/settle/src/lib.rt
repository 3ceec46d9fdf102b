// The cheapest legal paths to one AS, taken in the order of their costs.
#![tactic(auto)]

ghost use Rattle.std.specs.Prelude.{◌≡◌, ◌+◌, ◌*◌, ◌<◌, ◌≤◌};
ghost use Rattle.settle.specs.Memory.{memory_of, Lent};
ghost use Rattle.settle.specs.Settled.{Settles};

use measure::Measure;
use network::stores::Store;
use table::types::{RouteRefusal, Table};

mod filling;
pub mod types;

use filling::fill::fill_column;
use types::Work;

// Where the column of the AS at `spot` begins, among n ASes.
fn column_start(n: usize, spot: usize) -> usize
    requires known { spot < n }
    requires few { n ≤ 512 }
    ensures start { result ≡ 2 * n * spot }
    ensures ends { result + 2 * n ≤ 2 * n * n }
{
    2 * n * spot
}

// Fills the column of the AS `destination` with the cheapest legal paths to it, and marks it.
// Answers how many of its entries are not blank.
pub fn settle<S: Store, M: Measure>(
    store: &S,
    table: &mut Table<'_, '_, M::Cost>,
    work: &mut Work<'_, '_, M::Cost>,
    destination: u32,
) -> Result<usize, RouteRefusal>
    ensures settles { Settles M.measure (S.roster store.now) (S.book store.now) destination (memory_of table.old work.old) (memory_of table.new work.new) result }
    ensures lent { Lent table.old table.new work.old work.new }
{
    if table.is_small(store) {
        return Err(RouteRefusal::TableTooSmall);
    }
    let n = store.as_count();
    let column_length = 2 * n;
    if work.waiting.len() < column_length || work.numbers.len() < column_length {
        return Err(RouteRefusal::WorkTooSmall);
    }
    let Some(spot) = store.place_of(destination) else {
        return Err(RouteRefusal::UnknownAs);
    };
    let first = column_start(n, spot);
    let column = &mut table.entries[first..first + column_length];
    // Of a part `..column_length` of a field, the check knows no more than the length afterwards.
    let slots = &mut work.waiting[0..column_length];
    let count = fill_column::<S, M>(store, column, slots, spot);
    // A mark is a byte of the caller's memory (a rule).
    table.marks[spot] = 1;
    Ok(count)
}
