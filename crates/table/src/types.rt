// What the table memory holds, and why a question about a route is refused.
ghost use Rattle.std.specs.Prelude.{◌≡◌, length, Some as SomeT};
ghost use Rattle.table.specs.Columns.{blank, next_place};
ghost use Rattle.table.specs.Memory.{small};
ghost use Rattle.table.specs.Numbers.{route_number};
ghost use Rattle.table.specs.Words.{route_words};

use network::stores::Store;
use std::error::Error;
use std::fmt;

// The next place of an entry that is blank.
pub const BLANK: u16 = 65_535;

// The place of the next AS, or BLANK, and the cost from here on. The memory is the caller's, and BLANK is what stands in it (a rule): code
// asks `next_place`.
#[derive(Clone, Copy)]
pub struct Entry<C> {
    pub next: u16,
    pub cost: C,
}

impl<C: Copy> Entry<C> {
    // The blank entry, which has the start cost.
    pub fn blank(start: C) -> Entry<C>
        ensures { result ≡ blank start }
    {
        Entry {
            next: BLANK,
            cost: start,
        }
    }

    // The place of the next AS, unless the entry is blank.
    pub fn next_place(self) -> Option<usize>
        ensures { result ≡ next_place self }
    {
        if self.next == BLANK {
            None
        } else {
            Some(self.next as usize)
        }
    }
}

// The entries, and the marks of the destinations: 1 where the column is settled. Both are the caller's memory, and may hold anything.
#[derive(Drop)]
pub struct Table<'a, 'b, C> {
    pub entries: &'a mut [Entry<C>],
    pub marks: &'b mut [u8],
}

impl<C: Copy> Table<'_, '_, C> {
    // Whether the table memory is too small for the ASes of a store.
    pub fn is_small<S: Store>(&self, store: &S) -> bool
        ensures { result ≡ small (length (S.roster store.now)) self.now.entries.now self.now.marks.now }
    {
        let n = store.as_count();
        self.entries.len() < 2 * n * n || self.marks.len() < n
    }
}

// Why a settle, a hop or a send is refused, with the number by which the refusal goes.
#[derive(Clone, Copy, PartialEq, Eq, Debug)]
pub enum RouteRefusal {
    TableTooSmall = 31,
    WorkTooSmall = 32,
    UnknownAs = 21,
    NotSettled = 22,
    NoPath = 23,
    ListTooShort = 24,
    FalseEntry = 35,
    LongWalk = 36,
}

impl RouteRefusal {
    // The number by which the refusal goes.
    pub fn number(self) -> u32
        ensures { result ≡ route_number self }
    {
        self as u32
    }
}

impl fmt::Display for RouteRefusal {
    ghost output = { λ x. SomeT (route_words x) };

    fn fmt<W: fmt::Write>(&self, f: &mut fmt::Formatter<W>) -> fmt::Result {
        f.write_str(match self {
            RouteRefusal::TableTooSmall => "the table memory is too small",
            RouteRefusal::WorkTooSmall => "the work memory is too small",
            RouteRefusal::UnknownAs => "the AS is not in the roster",
            RouteRefusal::NotSettled => "the destination is not settled",
            RouteRefusal::NoPath => "there is no legal path",
            RouteRefusal::ListTooShort => "the path has more ASes than the list has places",
            RouteRefusal::FalseEntry => "an entry on the way is false",
            RouteRefusal::LongWalk => "the walk is too long",
        })
    }
}

impl Error for RouteRefusal {}
