// A link and its parts, and why a call on a store is refused.
ghost use Rattle.std.specs.Prelude.{◌≡◌, Some as SomeT};
ghost use Rattle.network.specs.Books.{relation_named};
ghost use Rattle.network.specs.Numbers.{edit_number};
ghost use Rattle.network.specs.Words.{edit_words};

use std::error::Error;
use std::fmt;

// What one AS is to another.
#[derive(Clone, Copy, PartialEq, Eq, Debug)]
pub enum Relation {
    Provider,
    Customer,
    Peer,
}

// The relation that a number stands for: 1, 2 and 3, in the order of the enum.
impl TryFrom<u32> for Relation {
    type Error = EditRefusal;

    ghost try_from_gives = { λ x r. r ≡ relation_named x };

    fn try_from(number: u32) -> Result<Relation, EditRefusal> {
        match number {
            1 => Ok(Relation::Provider),
            2 => Ok(Relation::Customer),
            3 => Ok(Relation::Peer),
            _ => Err(EditRefusal::BadRelation),
        }
    }
}

// What a link is measured by: its delay in microseconds and its width in Mbit/s.
#[derive(Clone, Copy, PartialEq, Eq, Debug)]
pub struct Figures {
    pub delay: u32,
    pub width: u32,
}

// A link, its lower AS first; the relation is what the lower AS is to the higher one.
#[derive(Clone, Copy, PartialEq, Eq, Debug)]
pub struct Link {
    pub low: u32,
    pub high: u32,
    pub relation: Relation,
    pub figures: Figures,
}

// Why an edit of the book is refused.
#[derive(Clone, Copy, PartialEq, Eq, Debug)]
pub enum EditRefusal {
    UnknownFirst,
    UnknownSecond,
    SameAs,
    BadRelation,
    BadDelay,
    BadWidth,
    AlreadyLinked,
    NotLinked,
    Full,
}

impl EditRefusal {
    // The number by which the refusal goes.
    pub fn number(self) -> u32
        ensures { result ≡ edit_number self }
    {
        match self {
            EditRefusal::UnknownFirst | EditRefusal::UnknownSecond => 11,
            EditRefusal::SameAs => 12,
            EditRefusal::BadRelation => 13,
            EditRefusal::BadDelay => 14,
            EditRefusal::BadWidth => 15,
            EditRefusal::AlreadyLinked => 16,
            EditRefusal::NotLinked => 17,
            EditRefusal::Full => 18,
        }
    }
}

impl fmt::Display for EditRefusal {
    ghost output = { λ x. SomeT (edit_words x) };

    fn fmt<W: fmt::Write>(&self, f: &mut fmt::Formatter<W>) -> fmt::Result {
        f.write_str(match self {
            EditRefusal::UnknownFirst => "the first AS is not in the roster",
            EditRefusal::UnknownSecond => "the second AS is not in the roster",
            EditRefusal::SameAs => "both ends are one AS",
            EditRefusal::BadRelation => "the relation is not 1, 2 or 3",
            EditRefusal::BadDelay => "the delay is not from 1 to 1000000",
            EditRefusal::BadWidth => "the width is not from 1 to 1000000",
            EditRefusal::AlreadyLinked => "the pair is linked already",
            EditRefusal::NotLinked => "the pair is not linked",
            EditRefusal::Full => "the book is full",
        })
    }
}

impl Error for EditRefusal {}

// Why a list of AS numbers is no roster.
#[derive(Clone, Copy, PartialEq, Eq, Debug)]
pub enum RosterRefusal {
    NotARoster,
}
