// A script that is read, and what is wrong with one.
ghost use Rattle.std.specs.Prelude.{◌≡◌, ◌≤◌, string_bytes, Some as SomeT};
ghost use Rattle.scripts.specs.declared.types.FaultKind.TheVariants.{BadRoster as BadRosterT, NotAClass as NotAClassT, OutOfMemory as OutOfMemoryT};
ghost use Rattle.std.specs.Str.Parse.{error_kind};
ghost use Rattle.scripts.specs.Faults.{fault_words, fault_text, number_fault};

use legality::types::UnknownClass;
use network::types::RosterRefusal;
use runs::types::{AsCall, Call};
use std::alloc::{AllocError, AllocFailed};
use std::convert::AsStr;
use std::error::Error;
use std::fmt;
use std::num::{IntErrorKind, ParseIntError};

// A call, and its words joined by one space.
#[derive(Drop)]
pub struct ScriptCall {
    pub call: Call,
    pub words: String,
}

impl AsStr for ScriptCall {
    ghost text = { λ x. string_bytes x.words };

    fn as_str(&self) -> &str {
        self.words.as_str()
    }
}

impl AsCall for ScriptCall {
    ghost call = { λ x. x.call };

    fn as_call(&self) -> Call {
        self.call
    }
}

// The ASes of a script, and its calls.
#[derive(Drop)]
pub struct Script {
    pub roster: Vec<u32>,
    pub calls: Vec<ScriptCall>,
}

// What is wrong with a line.
#[derive(Clone, Copy, PartialEq, Eq, Debug)]
pub enum FaultKind {
    NotText,
    NoRoster,
    BadRoster,
    UnknownWord,
    MissingWord,
    ExtraWord,
    NotANumber,
    NumberTooLarge,
    SizeTooLarge,
    NotAClass,
    OutOfMemory,
}

impl FaultKind {
    // The fault, in the line below so many.
    pub(crate) fn below(self, lines: usize) -> ScriptFault
        ensures { 1 ≤ result.line }
    {
        ScriptFault {
            line: lines.saturating_add(1),
            kind: self,
        }
    }
}

impl fmt::Display for FaultKind {
    ghost output = { λ kind. SomeT (fault_words kind) };

    fn fmt<W: fmt::Write>(&self, f: &mut fmt::Formatter<W>) -> fmt::Result {
        f.write_str(match self {
            FaultKind::NotText => "the line is not UTF-8 text",
            FaultKind::NoRoster => "the script does not begin with a roster line",
            FaultKind::BadRoster =>
                "the roster is not 1 to 24 AS numbers, none of them 0, in increasing order",
            FaultKind::UnknownWord => "the first word is no call",
            FaultKind::MissingWord => "a word is missing",
            FaultKind::ExtraWord => "there is a word too many",
            FaultKind::NotANumber => "a word is no decimal number where a number belongs",
            FaultKind::NumberTooLarge => "a number is above 4294967295",
            FaultKind::SizeTooLarge => "a size is above 1000000",
            FaultKind::NotAClass => "a word is neither home nor outside where a class belongs",
            FaultKind::OutOfMemory => "there is no memory for more",
        })
    }
}

// By hand, here and below: a clause needs to know the variant, which a derived `From` does not tell.
impl From<AllocError> for FaultKind {
    ghost from_gives = { λ _ r. r ≡ OutOfMemoryT };

    fn from(_error: AllocError) -> FaultKind {
        FaultKind::OutOfMemory
    }
}

impl<T: Drop> From<AllocFailed<T>> for FaultKind {
    ghost from_gives = { λ _ r. r ≡ OutOfMemoryT };

    fn from(_error: AllocFailed<T>) -> FaultKind {
        FaultKind::OutOfMemory
    }
}

impl From<ParseIntError> for FaultKind {
    ghost from_gives = { λ error kind. kind ≡ number_fault (error_kind error) };

    fn from(error: ParseIntError) -> FaultKind {
        match error.kind() {
            IntErrorKind::PosOverflow => FaultKind::NumberTooLarge,
            _ => FaultKind::NotANumber,
        }
    }
}

impl From<RosterRefusal> for FaultKind {
    ghost from_gives = { λ _ r. r ≡ BadRosterT };

    fn from(_refusal: RosterRefusal) -> FaultKind {
        FaultKind::BadRoster
    }
}

impl From<UnknownClass> for FaultKind {
    ghost from_gives = { λ _ r. r ≡ NotAClassT };

    fn from(_error: UnknownClass) -> FaultKind {
        FaultKind::NotAClass
    }
}

// A fault of a script, and its line, which counts from 1.
#[derive(Clone, Copy, PartialEq, Eq, Debug)]
pub struct ScriptFault {
    pub line: usize,
    pub kind: FaultKind,
}

impl fmt::Display for ScriptFault {
    ghost output = { λ fault. SomeT (fault_text fault) };

    fn fmt<W: fmt::Write>(&self, f: &mut fmt::Formatter<W>) -> fmt::Result {
        write!(f, "line {}: {}", self.line, self.kind)
    }
}

impl Error for ScriptFault {}
