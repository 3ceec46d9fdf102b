// Where a place stands among slots that wait, and which of them is taken first.
ghost use Rattle.std.specs.Prelude.{◌≡◌, ◌<◌, ◌==◌, length, position};
ghost use Rattle.std.specs.List.{IsFirstBest};
ghost use Rattle.waiting.specs.Slots.{sooner};

use crate::types::Slot;
use measure::Measure;

// Where the first of the slots stands that has `place`.
pub(super) fn find<C>(slots: &[Slot<C>], place: u32) -> Option<usize>
    ensures { result ≡ position (λ s. s.place == place) slots.now }
{
    slots.iter().position(|slot| slot.place == place)
}

// Whether `a` is taken before `b`. By `less`, since an `Ord` of costs would ask more of a measure.
fn is_sooner<M: Measure>(a: Slot<M::Cost>, b: Slot<M::Cost>) -> bool
    ensures { result ≡ sooner M.measure.less a b }
{
    M::less(a.cost, b.cost) || (!M::less(b.cost, a.cost) && a.place < b.place)
}

// Where the slot stands that is taken first. A `for` over places: min_by gives the slot and not its place, and a fold is no plainer.
pub(super) fn first<M: Measure>(slots: &[Slot<M::Cost>]) -> usize
    requires { 0 < length slots.now }
    ensures { IsFirstBest (sooner M.measure.less) slots.now (length slots.now) result }
{
    let mut best = 0;
    for i in 1..slots.len() {
        if is_sooner::<M>(slots[i], slots[best]) {
            best = i;
        }
    }
    best
}
