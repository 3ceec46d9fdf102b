// Calls on a board, what they answer, and why a run breaks off.
ghost use Rattle.std.specs.Prelude.{◌≡◌};
ghost use Rattle.runs.specs.declared.types.Call.{Call as CallT};
ghost use Rattle.runs.specs.declared.types.RunRefusal.TheVariants.{Board as BoardT, OutOfMemory as OutOfMemoryT};

use board::types::BoardRefusal;
use legality::types::Class;
use network::types::Figures;
use std::alloc::{AllocError, AllocFailed};
use table::types::RouteRefusal;

// An edit of the links. The relation is what the first AS is to the second: 1 its provider, 2 its customer, 3 its peer; it is a number,
// since another one is refused (a rule).
#[derive(Clone, Copy)]
pub enum Edit {
    Link {
        first: u32,
        second: u32,
        relation: u32,
        figures: Figures,
    },
    Recost {
        first: u32,
        second: u32,
        figures: Figures,
    },
    Unlink {
        first: u32,
        second: u32,
    },
}

// A call that leaves the links as they are. `waiting` and `numbers` are the sizes of the work memory that it brings, and `room` that of
// its list.
#[derive(Clone, Copy)]
pub enum ReadCall {
    Settle {
        destination: u32,
        waiting: usize,
        numbers: usize,
    },
    Hop {
        source: u32,
        class: Class,
        destination: u32,
    },
    Send {
        source: u32,
        destination: u32,
        room: usize,
    },
}

#[derive(Clone, Copy)]
pub enum Call {
    Edit(Edit),
    Read(ReadCall),
}

// What has a call to make.
pub trait AsCall {
    ghost call: { Self → CallT };

    fn as_call(&self) -> Call
        ensures { result ≡ call self.now };
}

impl AsCall for Call {
    ghost call = { λ x. x };

    fn as_call(&self) -> Call {
        *self
    }
}

// What a call answered; a send, with its list as it stands afterwards.
#[derive(Drop)]
pub enum Reply<C> {
    Edited(Result<(), BoardRefusal>),
    Settled(Result<usize, RouteRefusal>),
    Hopped(Result<Option<u32>, RouteRefusal>),
    Sent(Result<(C, usize), RouteRefusal>, Vec<u32>),
}

// Why a run breaks off: the board is not opened, or there is no memory for the next call or its answer.
#[derive(Clone, Copy)]
pub enum RunRefusal {
    Board(BoardRefusal),
    OutOfMemory,
}

// By hand, here and below: a clause needs to know the variant, which a derived `From` does not tell.
impl From<BoardRefusal> for RunRefusal {
    ghost from_gives = { λ x r. r ≡ BoardT x };

    fn from(refusal: BoardRefusal) -> RunRefusal {
        RunRefusal::Board(refusal)
    }
}

impl From<AllocError> for RunRefusal {
    ghost from_gives = { λ _ r. r ≡ OutOfMemoryT };

    fn from(_error: AllocError) -> RunRefusal {
        RunRefusal::OutOfMemory
    }
}

impl<T: Drop> From<AllocFailed<T>> for RunRefusal {
    ghost from_gives = { λ _ r. r ≡ OutOfMemoryT };

    fn from(_error: AllocFailed<T>) -> RunRefusal {
        RunRefusal::OutOfMemory
    }
}
