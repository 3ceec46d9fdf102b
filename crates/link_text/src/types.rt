// The fields of a line, what a line says, and what can be wrong with the text.
ghost use Rattle.std.specs.Prelude.{◌≡◌};
ghost use Rattle.link_text.specs.Fields.{column_of, width_of, names_as};

// A field of a line: two AS numbers, the relation, the delay and the width of the link.
#[derive(Clone, Copy, PartialEq, Eq, Debug)]
pub enum Field {
    First,
    Second,
    Relation,
    Delay,
    Width,
}

impl Field {
    // The first column of the field, counted from 1.
    pub fn column(self) -> usize
        ensures { result ≡ column_of self }
    {
        match self {
            Field::First => 1,
            Field::Second => 11,
            Field::Relation => 21,
            Field::Delay => 25,
            Field::Width => 33,
        }
    }

    // The number of columns of the field.
    pub fn width(self) -> usize
        ensures { result ≡ width_of self }
    {
        match self {
            Field::First | Field::Second => 10,
            Field::Relation => 4,
            Field::Delay | Field::Width => 8,
        }
    }

    // Whether the field names an AS.
    pub(crate) fn names_as(self) -> bool
        ensures { result ≡ names_as self }
    {
        matches!(self, Field::First | Field::Second)
    }
}

// What is wrong with the text, and in which field.
#[derive(Clone, Copy, PartialEq, Eq, Debug)]
pub enum TextFault {
    BrokenLine,
    BadField(Field),
    BadNumber(Field),
}

// What a line says.
#[derive(Clone, Copy, PartialEq, Eq, Debug)]
pub struct Line {
    pub first: u32,
    pub second: u32,
    // A number as it stands in the text: another one than a relation's is the board's to refuse (a rule).
    pub relation: u32,
    pub delay: u32,
    pub width: u32,
}
