// The calls of a run, each with the memory that it brings.
ghost use Rattle.std.specs.Prelude.{◌≡◌, ◌∷◌, length, replicate, IfOk};
ghost use Rattle.legality.specs.Networks.{net_of};
ghost use Rattle.table.specs.Memory.{small, SameMemory};
ghost use Rattle.routes.specs.Raw.{sending};
ghost use Rattle.board.specs.declared.types.BoardRefusal.TheVariants.{TableTooSmall as TooSmallT};
ghost use Rattle.board.specs.Edits.{told, BoardEdits};
ghost use Rattle.runs.specs.Runs.{causes_of, book_after};
ghost use Rattle.runs.specs.Work.{SettledWith, SentWith};

use crate::types::Edit;
use board::edits::{link, recost, unlink};
use board::types::BoardRefusal;
use measure::Measure;
use network::stores::{EditableStore, Store};
use routes::send;
use settle::settle;
use settle::types::Work;
use std::alloc::{AllocError, Global};
use table::types::{RouteRefusal, Table};
use waiting::types::Slot;

// Makes an edit through the board: a `match`, since an edit is one of three records that the plain board judges, and no step to choose.
pub fn edit_board<S: EditableStore, C: Copy>(
    store: &mut S,
    table: &mut Table<'_, '_, C>,
    edit: Edit,
) -> Result<(), BoardRefusal>
    ensures same { SameMemory table.old table.new }
    ensures edits { BoardEdits ((TooSmallT, small (length (S.Store.roster store.old)) table.old.entries.now table.old.marks.now) ∷ told (causes_of (S.Store.roster store.old) (S.Store.book store.old) (S.limit store.old) edit)) (book_after (S.Store.book store.old) edit) (S.Store.roster store.old) (S.Store.roster store.new) (S.Store.book store.old) (S.Store.book store.new) (S.limit store.old) (S.limit store.new) table.old.entries.now table.new.entries.now table.old.marks.now table.new.marks.now result }
{
    match edit {
        Edit::Link {
            first,
            second,
            relation,
            figures,
        } => link(store, table, first, second, relation, figures),
        Edit::Recost {
            first,
            second,
            figures,
        } => recost(store, table, first, second, figures),
        Edit::Unlink { first, second } => unlink(store, table, first, second),
    }
}

// Memory of so many places, with x in each.
// Not `vec!`, which clones x: no measure says that a clone of its cost cannot fail.
fn places<T: Copy>(heap: Global, count: usize, x: T) -> Result<Vec<T>, AllocError>
    ensures { IfOk result (λ v. v.items ≡ replicate count x) }
{
    let mut items = Vec::new(heap);
    items.resize(count, x)?;
    Ok(items)
}

// Settles an AS with so much work memory.
pub fn settle_with<S: Store, M: Measure>(
    heap: Global,
    store: &S,
    table: &mut Table<'_, '_, M::Cost>,
    destination: u32,
    waiting: usize,
    numbers: usize,
) -> Result<Result<usize, RouteRefusal>, AllocError>
    ensures same { SameMemory table.old table.new }
    ensures settles { SettledWith M.measure (S.roster store.now) (S.book store.now) destination waiting numbers table.old.entries.now table.new.entries.now table.old.marks.now table.new.marks.now result }
{
    let slot = Slot {
        place: 0,
        cost: M::start(),
    };
    let mut slots = places(heap, waiting, slot)?;
    let mut words = places(heap, numbers, 0)?;
    let mut work = Work {
        waiting: slots.as_mut_slice(),
        numbers: words.as_mut_slice(),
    };
    Ok(settle::<S, M>(store, table, &mut work, destination))
}

// Sends with a list of so much room.
pub fn send_with<S: Store, M: Measure>(
    heap: Global,
    store: &S,
    table: &Table<'_, '_, M::Cost>,
    source: u32,
    destination: u32,
    room: usize,
) -> Result<(Result<(M::Cost, usize), RouteRefusal>, Vec<u32>), AllocError>
    ensures { SentWith (sending M.measure (net_of (S.roster store.now) (S.book store.now)) table.now.entries.now table.now.marks.now source destination room) room result }
{
    let mut list = places(heap, room, 0)?;
    let answer = send::<S, M>(store, table, source, destination, list.as_mut_slice());
    Ok((answer, list))
}
