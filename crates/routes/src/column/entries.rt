// The entries of a column.
ghost use Rattle.std.specs.Prelude.{◌≡◌, ◌*◌, ◌<◌, ◌≤◌, not, ◌&&◌, ◌==◌};
ghost use Rattle.table.specs.Memory.{index};
ghost use Rattle.routes.specs.Columns.{Stands, entry_in, owed_in};

use crate::column::{Column, Stop};
use legality::types::Class;
use measure::Measure;
use network::stores::Store;
use table::class_number;
use table::types::Entry;

// Where the entry of the AS at `from` to the AS at `to` stands, among n ASes.
#[tactic(auto, using(table::proofs::Cells::index_below))]
fn spot_of(n: usize, to: usize, from: usize, class: Class) -> usize
    requires to { to < n }
    requires from { from < n }
    requires few { n ≤ 512 }
    ensures is { result ≡ index n to from class }
    ensures below { result < 2 * n * n }
{
    (to * n + from) * 2 + class_number(class)
}

impl<S: Store, M: Measure> Column<'_, S, M> {
    // The entry of the AS at a stop.
    pub fn entry(&self, at: Stop) -> Entry<M::Cost>
        requires { Stands self.now at }
        ensures { result ≡ entry_in self.now at }
    {
        self.entries[spot_of(self.store.as_count(), self.to, at.place, at.class)]
    }

    // Whether a stop has no way on, by its entry, and is not the end of the way.
    pub fn is_shut(&self, at: Stop) -> bool
        requires { Stands self.now at }
        ensures { result ≡ (not (at.place == self.now.to) && (entry_in self.now at).next == 65535) }
    {
        at.place != self.to && self.entry(at).next_place().is_none()
    }

    // The cost from a stop on.
    pub fn owed(&self, at: Stop) -> M::Cost
        requires { Stands self.now at }
        ensures { result ≡ owed_in self.now at }
    {
        if at.place == self.to {
            return M::start();
        }
        self.entry(at).cost
    }
}
