// The waiting list: the first `used` slots of the memory that is lent wait, in no order. The memory is the caller's (a rule), so what is
// used of it is counted beside it.
ghost use Rattle.std.specs.Prelude.{◌≤◌, length};
ghost use Rattle.waiting.specs.Slots.{Apart};

use crate::types::Slot;
use measure::Measure;

mod calls;
mod slots;

#[derive(Drop)]
pub struct Waiting<'a, M: Measure> {
    slots: &'a mut [Slot<M::Cost>],
    used: usize,
    ghost fits: { used ≤ length slots.now },
    ghost apart: { Apart used slots.now },
}
