// Why a call of the board is refused.
ghost use Rattle.std.specs.Prelude.{◌≡◌, Some as SomeT};
ghost use Rattle.board.specs.declared.types.BoardRefusal.TheVariants.{Edit as EditT};
ghost use Rattle.board.specs.Numbers.{board_number};
ghost use Rattle.board.specs.Words.{board_words};

use network::types::EditRefusal;
use std::error::Error;
use std::fmt;

// Why the opening of a board, or an edit through it, is refused.
#[derive(Clone, Copy, PartialEq, Eq, Debug)]
pub enum BoardRefusal {
    TableTooSmall,
    Edit(EditRefusal),
}

impl BoardRefusal {
    // The number by which the refusal goes.
    pub fn number(self) -> u32
        ensures { result ≡ board_number self }
    {
        match self {
            BoardRefusal::TableTooSmall => 31,
            BoardRefusal::Edit(refusal) => refusal.number(),
        }
    }
}

impl fmt::Display for BoardRefusal {
    ghost output = { λ x. SomeT (board_words x) };

    fn fmt<W: fmt::Write>(&self, f: &mut fmt::Formatter<W>) -> fmt::Result {
        match self {
            BoardRefusal::TableTooSmall => f.write_str("the table memory is too small"),
            BoardRefusal::Edit(refusal) => refusal.fmt(f),
        }
    }
}

impl Error for BoardRefusal {}

// By hand: a clause needs to know the variant, which a derived `From` does not tell.
impl From<EditRefusal> for BoardRefusal {
    ghost from_gives = { λ x r. r ≡ EditT x };

    fn from(refusal: EditRefusal) -> BoardRefusal {
        BoardRefusal::Edit(refusal)
    }
}
