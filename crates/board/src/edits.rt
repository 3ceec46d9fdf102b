// The opening of a board, and edits of its links. That the memory is the same stands in each contract by one word: it relates what was
// before a call to what is after it, which no type says of a `&mut`.
ghost use Rattle.std.specs.Prelude.{◌≡◌, ◌≤◌, length};
ghost use Rattle.std.specs.Fn.{FnOnceReturnsAtMut};
ghost use Rattle.network.specs.declared.types.EditRefusal.{EditRefusal as EditRefusalT};
ghost use Rattle.table.specs.Memory.{SameMemory};
ghost use Rattle.board.specs.Edits.{cleared, Opens, Passes, BoardLinks, BoardRecosts, BoardUnlinks};

use crate::types::BoardRefusal;
use network::stores::{EditableStore, Store};
use network::types::{EditRefusal, Figures};
use table::types::Table;

// Clears the first n marks: no destination is settled then.
fn clear(marks: &mut [u8], n: usize)
    requires { n ≤ length marks.old }
    ensures { marks.new ≡ cleared n marks.old }
{
    marks[..n].fill(0);
}

// Begins a board: no destination is settled then.
pub fn open<S: Store, C: Copy>(store: &S, table: &mut Table<'_, '_, C>) -> Result<(), BoardRefusal>
    ensures same { SameMemory table.old table.new }
    ensures opens { Opens (length (S.roster store.now)) table.old.entries.now table.new.entries.now table.old.marks.now table.new.marks.now result }
{
    if table.is_small(store) {
        return Err(BoardRefusal::TableTooSmall);
    }
    clear(table.marks, store.as_count());
    Ok(())
}

// Passes an edit on to the store, if the table memory is large enough; no destination is settled after an accepted one.
fn pass_on<S: EditableStore, C: Copy, F: FnOnce(&mut S) -> Result<(), EditRefusal>>(
    store: &mut S,
    table: &mut Table<'_, '_, C>,
    edit: F,
) -> Result<(), BoardRefusal>
    requires { F.IsAlwaysCallable edit }
    ensures same { SameMemory table.old table.new }
    ensures passes { Passes (length (S.Store.roster store.old)) store.old store.new (FnOnceReturnsAtMut F.FnOnce edit store.old) table.old.entries.now table.new.entries.now table.old.marks.now table.new.marks.now result }
{
    if table.is_small(store) {
        return Err(BoardRefusal::TableTooSmall);
    }
    let n = store.as_count();
    edit(store)?;
    clear(table.marks, n);
    Ok(())
}

// Enters a link into the store's book. The relation is what the first AS is to the second: 1 its provider, 2 its customer, 3 its peer;
// it is a number, since another one is refused (a rule).
pub fn link<S: EditableStore, C: Copy>(
    store: &mut S,
    table: &mut Table<'_, '_, C>,
    first: u32,
    second: u32,
    relation: u32,
    figures: Figures,
) -> Result<(), BoardRefusal>
    ensures same { SameMemory table.old table.new }
    ensures links { BoardLinks first second relation figures (S.Store.roster store.old) (S.Store.roster store.new) (S.Store.book store.old) (S.Store.book store.new) (S.limit store.old) (S.limit store.new) table.old.entries.now table.new.entries.now table.old.marks.now table.new.marks.now result }
{
    pass_on(
        store,
        table,
        |store| store.link(first, second, relation, figures),
    )
}

// Gives a link new figures; its relation stays.
pub fn recost<S: EditableStore, C: Copy>(
    store: &mut S,
    table: &mut Table<'_, '_, C>,
    first: u32,
    second: u32,
    figures: Figures,
) -> Result<(), BoardRefusal>
    ensures same { SameMemory table.old table.new }
    ensures recosts { BoardRecosts first second figures (S.Store.roster store.old) (S.Store.roster store.new) (S.Store.book store.old) (S.Store.book store.new) (S.limit store.old) (S.limit store.new) table.old.entries.now table.new.entries.now table.old.marks.now table.new.marks.now result }
{
    pass_on(store, table, |store| store.recost(first, second, figures))
}

// Takes a link out of the book.
pub fn unlink<S: EditableStore, C: Copy>(
    store: &mut S,
    table: &mut Table<'_, '_, C>,
    first: u32,
    second: u32,
) -> Result<(), BoardRefusal>
    ensures same { SameMemory table.old table.new }
    ensures unlinks { BoardUnlinks first second (S.Store.roster store.old) (S.Store.roster store.new) (S.Store.book store.old) (S.Store.book store.new) (S.limit store.old) (S.limit store.new) table.old.entries.now table.new.entries.now table.old.marks.now table.new.marks.now result }
{
    pass_on(store, table, |store| store.unlink(first, second))
}
