// A list is entered into a board, line by line.
ghost use Rattle.std.specs.Prelude.{◌≡◌};
ghost use Rattle.link_text.specs.Left.{left};
ghost use Rattle.table.specs.Memory.{SameMemory};
ghost use Rattle.link_list.specs.Loads.{Enters, Loads};

use crate::types::{Cause, Fault};
use board::edits::link;
use link_text::reader::Reader;
use network::stores::EditableStore;
use network::types::Figures;
use table::types::Table;

// Enters the next line by a link call of the board.
fn enter_line<S: EditableStore, C: Copy>(
    reader: &mut Reader<'_>,
    store: &mut S,
    table: &mut Table<'_, '_, C>,
) -> Result<(), Cause>
    ensures same { SameMemory table.old table.new }
    ensures text { reader.new.text.now ≡ reader.old.text.now }
    ensures roster { S.Store.roster store.new ≡ S.Store.roster store.old }
    ensures limit { S.limit store.new ≡ S.limit store.old }
    ensures entries { table.new.entries.now ≡ table.old.entries.now }
    ensures enters { Enters (S.Store.roster store.old) (S.limit store.old) table.old.entries.now (left reader.old) (left reader.new) (S.Store.book store.old) (S.Store.book store.new) table.old.marks.now table.new.marks.now result }
{
    let line = reader.line()?;
    let figures = Figures {
        delay: line.delay,
        width: line.width,
    };
    link(
        store,
        table,
        line.first,
        line.second,
        line.relation,
        figures,
    )?;
    Ok(())
}

// Enters a list by a link call for each line, and answers how many it entered.
// What earlier lines changed stays when a later one is refused.
pub fn load<S: EditableStore, C: Copy>(
    store: &mut S,
    table: &mut Table<'_, '_, C>,
    text: &[u8],
) -> Result<usize, Fault>
    ensures same { SameMemory table.old table.new }
    ensures roster { S.Store.roster store.new ≡ S.Store.roster store.old }
    ensures limit { S.limit store.new ≡ S.limit store.old }
    ensures entries { table.new.entries.now ≡ table.old.entries.now }
    ensures loads { Loads (S.Store.roster store.old) (S.limit store.old) table.old.entries.now (S.Store.book store.new) table.new.marks.now result 0 text.now (S.Store.book store.old) table.old.marks.now }
{
    let mut reader = Reader::new(text);
    let mut entered = 0;
    // By a rule of the project the reader is a struct with `&mut self` methods, so the loop asks it when to stop.
    while !reader.at_end() {
        enter_line(&mut reader, store, table).map_err(|cause| Fault {
            cause,
            line: entered + 1,
        })?;
        entered += 1;
    }
    Ok(entered)
}
