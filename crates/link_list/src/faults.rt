// The number, the column and the layer of a fault.
ghost use Rattle.std.specs.Prelude.{◌≡◌};
ghost use Rattle.link_list.specs.Faults.{edit_field, cause_number, cause_field, cause_column, cause_layer};

use crate::types::{Cause, Fault};
use board::types::BoardRefusal;
use link_text::types::{Field, TextFault};
use network::types::EditRefusal;

// The field that a refusal of an edit is about.
fn edit_field(refusal: EditRefusal) -> Option<Field>
    ensures { result ≡ edit_field refusal }
{
    match refusal {
        EditRefusal::UnknownFirst => Some(Field::First),
        EditRefusal::UnknownSecond => Some(Field::Second),
        EditRefusal::BadRelation => Some(Field::Relation),
        EditRefusal::BadDelay => Some(Field::Delay),
        EditRefusal::BadWidth => Some(Field::Width),
        _ => None,
    }
}

impl Fault {
    pub fn number(self) -> usize
        ensures { result ≡ cause_number self.cause }
    {
        match self.cause {
            Cause::TooLong => 54,
            Cause::TooManyAses(_) => 55,
            Cause::Text(TextFault::BrokenLine) => 51,
            Cause::Text(TextFault::BadField(_)) => 52,
            Cause::Text(TextFault::BadNumber(_)) => 53,
            Cause::Board(refusal) => refusal.number() as usize,
        }
    }

    // The field in question.
    fn field(self) -> Option<Field>
        ensures { result ≡ cause_field self.cause }
    {
        match self.cause {
            Cause::TooManyAses(field) => Some(field),
            Cause::Text(TextFault::BadField(field) | TextFault::BadNumber(field)) => Some(field),
            Cause::Board(BoardRefusal::Edit(refusal)) => edit_field(refusal),
            _ => None,
        }
    }

    // The first column of the field in question, counted from 1. Here alone no field becomes 0, which the fault line prints.
    pub fn column(self) -> usize
        ensures { result ≡ cause_column self.cause }
    {
        self.field().map_or(0, |field| field.column())
    }

    // 1 where the text is at fault, 2 where the board refused, 3 where the store did.
    // It is the number that the fault line prints, said in this one place.
    pub fn layer(self) -> usize
        ensures { result ≡ cause_layer self.cause }
    {
        match self.cause {
            Cause::Board(
                BoardRefusal::Edit(
                    EditRefusal::AlreadyLinked | EditRefusal::NotLinked | EditRefusal::Full,
                ),
            ) => 3,
            Cause::Board(_) => 2,
            _ => 1,
        }
    }
}
