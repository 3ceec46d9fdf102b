// One column, filled.
ghost use Rattle.std.specs.Prelude.{◌≡◌, ◌*◌, ◌<◌, ◌≤◌, length, slice_index};
ghost use Rattle.table.specs.Columns.{filled};
ghost use Rattle.settle.specs.States.{Ended};

use crate::filling::Filling;
use crate::filling::starts::count_filled;
use legality::types::Class;
use measure::Measure;
use network::stores::Store;
use table::types::Entry;
use waiting::types::Slot;

// The column has the cheapest legal paths to the AS at `spot`; answers how many of its entries are not blank.
pub fn fill_column<S: Store, M: Measure>(
    store: &S,
    column: &mut [Entry<M::Cost>],
    slots: &mut [Slot<M::Cost>],
    spot: usize,
) -> usize
    requires known { spot < length (S.roster store.now) }
    requires long { length column.old ≡ 2 * length (S.roster store.now) }
    requires space { length column.old ≤ length slots.old }
    ensures ended { Ended M.measure (S.roster store.now) (S.book store.now) (slice_index (S.roster store.now) spot) column.new }
    ensures count { result ≡ filled column.new }
{
    let mut filling: Filling<'_, '_, M> = Filling::new(column, slots);
    filling.start_class(spot, Class::Home);
    filling.start_class(spot, Class::Outside);
    filling.settle_pairs(store);
    // Taken apart here: of a struct that is dropped whole, the check does not know what its column holds last.
    let Filling { column, .. } = filling;
    count_filled(column)
}
