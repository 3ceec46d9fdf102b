// The work memory of a settle.
use waiting::types::Slot;

// What a settle may write to on the way: slots for the waiting list, and numbers.
#[derive(Drop)]
pub struct Work<'a, 'b, C> {
    pub waiting: &'a mut [Slot<C>],
    pub numbers: &'b mut [u32],
}
