// The first pass over a list: the form of all lines, and the ASes that they name.
ghost use Rattle.std.specs.Prelude.{◌≡◌, ◌+◌, ◌<◌, ◌≤◌, true, ◌&&◌, [], length, take, drop, IfOk, is_ok, Ok, vec_capacity};
ghost use Rattle.network.specs.Rosters.{climbs};
ghost use Rattle.link_text.specs.Fields.{width_of, names_as};
ghost use Rattle.link_text.specs.Answers.{field_answer};
ghost use Rattle.link_text.specs.Left.{left, Moved};
ghost use Rattle.listing.specs.Surveys.{as_survey, figures_survey, line_survey, Surveyed, survey_answer, Surveys};

use link_list::types::{Cause, Fault};
use link_text::reader::Reader;
use link_text::types::{Field, TextFault};
use std::alloc::{AllocError, Global};
use stores::grid::MOST_ASES;

// The ASes that lines name, in increasing order; there is room for as many as may be named.
#[derive(Drop)]
pub struct Named {
    pub ases: Vec<u32>,
    ghost room: { 24 ≤ vec_capacity ases },
    ghost few: { length ases.items ≤ 24 },
    ghost rising: { climbs 0 ases.items ≡ true },
}

// Reads the rest of a line for its form.
fn survey_figures(reader: &mut Reader<'_>) -> Result<(), TextFault>
    ensures answer { result ≡ figures_survey (left reader.old) }
    ensures moved { is_ok result ≡ true → left reader.new ≡ drop 21 (left reader.old) }
{
    reader.field(Field::Relation)?;
    reader.field(Field::Delay)?;
    reader.field(Field::Width)?;
    reader.end_line();
    Ok(())
}

impl Named {
    // No ASes yet.
    pub fn new(heap: Global) -> Result<Named, AllocError>
        ensures { IfOk result (λ named. named.ases.items ≡ []) }
    {
        let ases = Vec::with_capacity(heap, MOST_ASES)?;
        Ok(Named { ases })
    }

    // Notes an AS that a field names, unless it is there.
    fn note(&mut self, field: Field, number: u32) -> Result<(), Cause>
        requires { 0 < number }
        ensures { Surveyed (as_survey field self.old.ases.items (Ok number)) self.new.ases.items result }
    {
        let Err(spot) = self.ases.binary_search(&number) else {
            return Ok(());
        };
        if self.ases.len() == MOST_ASES {
            return Err(Cause::TooManyAses(field));
        }
        // Never refused, for there is room.
        let _ = self.ases.insert(spot, number);
        Ok(())
    }

    // Reads a field that names an AS, and notes it.
    fn survey_as(&mut self, reader: &mut Reader<'_>, field: Field) -> Result<(), Cause>
        requires { names_as field ≡ true }
        ensures moved { Moved (width_of field) reader.old reader.new }
        ensures answer { Surveyed (as_survey field self.old.ases.items (field_answer field (take (width_of field) (left reader.old)))) self.new.ases.items result }
    {
        let number = reader.field(field)?;
        self.note(field, number)
    }

    // Reads a line for its form and its ASes.
    fn survey_line(&mut self, reader: &mut Reader<'_>) -> Result<(), Cause>
        ensures answer { Surveyed (line_survey (left reader.old) self.old.ases.items) self.new.ases.items result }
        ensures moved { is_ok result ≡ true → left reader.new ≡ drop 41 (left reader.old) }
    {
        reader.begin_line()?;
        self.survey_as(reader, Field::First)?;
        self.survey_as(reader, Field::Second)?;
        survey_figures(reader)?;
        Ok(())
    }

    // Reads all lines for their form and their ASes. The reader is a struct with `&mut self` methods (a rule), so the loop asks it when to
    // stop.
    pub fn survey(&mut self, text: &[u8]) -> Result<(), Fault>
        ensures { Surveys (survey_answer self.new.ases.items result) 0 text.now self.old.ases.items }
    {
        let mut reader = Reader::new(text);
        let mut lines = 0;
        while !reader.at_end() {
            self.survey_line(&mut reader).map_err(|cause| Fault {
                cause,
                line: lines + 1,
            })?;
            lines += 1;
        }
        Ok(())
    }
}
