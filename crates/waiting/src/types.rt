// What waits, and why a call on a waiting list is refused.

// A place that waits, and the cost at which it waits.
#[derive(Clone, Copy)]
pub struct Slot<C> {
    pub place: u32,
    pub cost: C,
}

#[derive(Clone, Copy, PartialEq, Eq, Debug)]
pub enum WaitingRefusal {
    AlreadyWaiting,
    Full,
    NotLower,
}
