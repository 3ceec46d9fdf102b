// What is wrong with a link list, and where.
ghost use Rattle.std.specs.Prelude.{◌≡◌};
ghost use Rattle.link_list.specs.declared.types.Cause.TheVariants.{Text as TextT, Board as BoardT};

use board::types::BoardRefusal;
use link_text::types::{Field, TextFault};

// Why a list is refused. A list that is too long, or that names too many ASes, is refused by the lister only.
#[derive(Clone, Copy, PartialEq, Eq, Debug)]
pub enum Cause {
    TooLong,
    TooManyAses(Field),
    Text(TextFault),
    Board(BoardRefusal),
}

// A fault of a list: its cause and its line, which counts from 1 (0 where the list is too long).
#[derive(Clone, Copy, PartialEq, Eq, Debug)]
pub struct Fault {
    pub cause: Cause,
    pub line: usize,
}

// By hand, here and below: a clause needs to know the variant, which a derived `From` does not tell.
impl From<TextFault> for Cause {
    ghost from_gives = { λ x r. r ≡ TextT x };

    fn from(fault: TextFault) -> Cause {
        Cause::Text(fault)
    }
}

impl From<BoardRefusal> for Cause {
    ghost from_gives = { λ x r. r ≡ BoardT x };

    fn from(refusal: BoardRefusal) -> Cause {
        Cause::Board(refusal)
    }
}
