// A column, before its pairs are taken and after. That it is the same column stands in each contract by one word: it relates before and
// after, which no field can.
ghost use Rattle.std.specs.Prelude.{◌≡◌, ℕ, ◌+◌, ◌<◌, ◌≤◌, length, Some, None, slice_index_or, slice_set};
ghost use Rattle.waiting.specs.Calls.{Sets};
ghost use Rattle.waiting.specs.Lists.{held, room};
ghost use Rattle.table.specs.Columns.{entry, blank, pair, filled};
ghost use Rattle.settle.specs.Memory.{SameColumn};

use crate::filling::Filling;
use crate::filling::pairs::entry_place;
use legality::types::Class;
use measure::Measure;
use table::types::Entry;
use waiting::list::Waiting;
use waiting::types::Slot;

// Every entry is blank then. By `fill_with`, since the library's `fill` asks of a cost that its clone cannot fail, which no measure says.
fn blank_column<M: Measure>(column: &mut [Entry<M::Cost>])
    ensures { (p : ℕ) → p < length column.new → slice_index_or column.new p (blank M.measure.start) ≡ blank M.measure.start }
{
    column.fill_with(|| Entry::blank(M::start()));
}

// How many entries are not blank.
pub(super) fn count_filled<C: Copy>(column: &[Entry<C>]) -> usize
    ensures { result ≡ filled column.now }
{
    column
        .iter()
        .filter(|entry| entry.next_place().is_some())
        .count()
}

impl<'c, 'w, M: Measure> Filling<'c, 'w, M> {
    // A blank column, of which nothing waits.
    pub fn new(
        column: &'c mut [Entry<M::Cost>],
        slots: &'w mut [Slot<M::Cost>],
    ) -> Filling<'c, 'w, M>
        requires few { length column.old ≤ 1024 }
        requires space { length column.old ≤ length slots.old }
        ensures blank { (p : ℕ) → p < length result.column.now → slice_index_or result.column.now p (blank M.measure.start) ≡ blank M.measure.start }
        ensures long { length result.column.now ≡ length column.old }
        ensures none { (p : ℕ) → held result.waiting p ≡ None }
        ensures room { room result.waiting ≡ length slots.old }
        ensures lent { result.column.ghost_name ≡ column.entry.ghost_name }
    {
        blank_column::<M>(column);
        let waiting = Waiting::new(slots);
        Filling { column, waiting }
    }

    // The entry of the destination, at the place `spot`, for one class; it waits then.
    pub fn start_class(&mut self, spot: usize, class: Class)
        requires within { pair spot class < length self.old.column.now }
        requires idle { held self.old.waiting (pair spot class) ≡ None }
        requires free { 0 < room self.old.waiting }
        ensures column { self.new.column.now ≡ slice_set self.old.column.now (pair spot class) (entry spot M.measure.start) }
        ensures sets { Sets (held self.old.waiting) (held self.new.waiting) (pair spot class) (Some M.measure.start) }
        ensures room { room self.new.waiting + 1 ≡ room self.old.waiting }
        ensures lent { SameColumn self.old self.new }
    {
        let start = M::start();
        let place = entry_place(spot, class);
        self.column[place] = Entry {
            next: spot as u16,
            cost: start,
        };
        let _ = self.waiting.put(place as u32, start);
    }
}
