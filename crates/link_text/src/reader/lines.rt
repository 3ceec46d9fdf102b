// Reading a list line by line, and a line field by field.
ghost use Rattle.std.specs.Prelude.{◌≡◌, take};
ghost use Rattle.link_text.specs.Fields.{width_of};
ghost use Rattle.link_text.specs.Numerals.{none};
ghost use Rattle.link_text.specs.Answers.{field_answer, start_answer, line_answer, line_reach};
ghost use Rattle.link_text.specs.Left.{left, Moved};

use super::Reader;
use crate::numeral::number_in;
use crate::types::{Field, Line, TextFault};

// The columns of a line, which a line feed follows.
const COLUMNS: usize = 40;

const LINE_FEED: u8 = b'\n';

impl<'a> Reader<'a> {
    // A reader at the start of `text`.
    pub fn new(text: &'a [u8]) -> Reader<'a>
        ensures text { result.text.now ≡ text.now }
        ensures start { result.position ≡ 0 }
    {
        Reader { text, position: 0 }
    }

    // What is still to be read.
    fn rest(&self) -> &'a [u8]
        ensures { result.now ≡ left self.now }
    {
        &self.text[self.position..]
    }

    // Whether all of the text is read.
    pub fn at_end(&self) -> bool
        ensures { result ≡ none (left self.now) }
    {
        self.rest().is_empty()
    }

    // Takes the next `count` bytes, or those that are left where they are fewer.
    fn advance(&mut self, count: usize) -> &'a [u8]
        ensures bytes { result.now ≡ take count (left self.old) }
        ensures moved { Moved count self.old self.new }
    {
        let rest = self.rest();
        let taken = rest.get(..count).unwrap_or(rest);
        self.position += taken.len();
        taken
    }

    // Whether a line stands here; asked before its first field. Nothing is read.
    pub fn begin_line(&self) -> Result<(), TextFault>
        ensures { result ≡ start_answer (left self.now) }
    {
        match self.rest().get(COLUMNS) {
            Some(&LINE_FEED) => Ok(()),
            _ => Err(TextFault::BrokenLine),
        }
    }

    // Reads the next field, which is `field`; a field with a fault is passed too.
    pub fn field(&mut self, field: Field) -> Result<u32, TextFault>
        ensures answer { result ≡ field_answer field (take (width_of field) (left self.old)) }
        ensures moved { Moved (width_of field) self.old self.new }
    {
        number_in(self.advance(field.width()), field)
    }

    // Passes the line feed.
    pub fn end_line(&mut self)
        ensures { Moved 1 self.old self.new }
    {
        self.advance(1);
    }

    // Reads a line: the first fault in it, or what it says.
    pub fn line(&mut self) -> Result<Line, TextFault>
        ensures answer { result ≡ line_answer (left self.old) }
        ensures moved { Moved (line_reach result) self.old self.new }
    {
        self.begin_line()?;
        let first = self.field(Field::First)?;
        let second = self.field(Field::Second)?;
        let relation = self.field(Field::Relation)?;
        let delay = self.field(Field::Delay)?;
        let width = self.field(Field::Width)?;
        self.end_line();
        Ok(Line {
            first,
            second,
            relation,
            delay,
            width,
        })
    }
}
