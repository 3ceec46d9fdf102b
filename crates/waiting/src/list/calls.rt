// The calls on a waiting list. That the memory is the one lent stands in each contract: it relates before and after, as no field can.
ghost use Rattle.std.specs.Prelude.{◌≡◌, ℕ, length, None};
ghost use Rattle.waiting.specs.Calls.{Put, Lower, Take};
ghost use Rattle.waiting.specs.Lists.{held, room, memory, lent};

use crate::list::Waiting;
use crate::list::slots::{find, first};
use crate::types::{Slot, WaitingRefusal};
use measure::Measure;

impl<'a, M: Measure> Waiting<'a, M> {
    // A list on which nothing waits, over the memory `slots`.
    pub fn new(slots: &'a mut [Slot<M::Cost>]) -> Waiting<'a, M>
        ensures none { (q : ℕ) → held result q ≡ None }
        ensures room { room result ≡ length slots.old }
        ensures memory { memory result ≡ slots.old }
        ensures lent { lent result ≡ slots.entry.ghost_name }
    {
        Waiting { slots, used: 0 }
    }

    // Has `place` wait at `cost`.
    pub fn put(&mut self, place: u32, cost: M::Cost) -> Result<(), WaitingRefusal>
        ensures after { Put place cost (held self.old) (held self.new) (room self.old) (room self.new) (memory self.old) (memory self.new) result }
        ensures lent { lent self.new ≡ lent self.old }
    {
        let slots = &mut *self.slots;
        if find(&slots[..self.used], place).is_some() {
            return Err(WaitingRefusal::AlreadyWaiting);
        }
        if self.used == slots.len() {
            return Err(WaitingRefusal::Full);
        }
        slots[self.used] = Slot { place, cost };
        self.used += 1;
        Ok(())
    }

    // Has `place`, which waits, wait at the lower `cost`.
    pub fn lower(&mut self, place: u32, cost: M::Cost) -> Result<(), WaitingRefusal>
        ensures after { Lower M.measure.less place cost (held self.old) (held self.new) (room self.old) (room self.new) (memory self.old) (memory self.new) result }
        ensures lent { lent self.new ≡ lent self.old }
    {
        let slots = &mut *self.slots;
        let Some(i) = find(&slots[..self.used], place) else {
            return Err(WaitingRefusal::NotLower);
        };
        if !M::less(cost, slots[i].cost) {
            return Err(WaitingRefusal::NotLower);
        }
        slots[i].cost = cost;
        Ok(())
    }

    // Takes out the place of the least cost, the smallest one among equals.
    pub fn take(&mut self) -> Option<Slot<M::Cost>>
        ensures after { Take M.measure.less (held self.old) (held self.new) (room self.old) (room self.new) (memory self.old) (memory self.new) result }
        ensures lent { lent self.new ≡ lent self.old }
    {
        if self.used == 0 {
            return None;
        }
        let slots = &mut *self.slots;
        let i = first::<M>(&slots[..self.used]);
        let least = slots[i];
        self.used -= 1;
        slots[i] = slots[self.used];
        Some(least)
    }
}
