// One call on a board.
ghost use Rattle.std.specs.Prelude.{◌≡◌, ℕ, Some as SomeT, Option as OptionT};
ghost use Rattle.table.specs.Memory.{SameMemory};
ghost use Rattle.runs.specs.Plain.{board_of};
ghost use Rattle.runs.specs.declared.types.Call.TheVariants.{Read as ReadT};
ghost use Rattle.runs.specs.Runs.{Plays};

use crate::calls::{edit_board, send_with, settle_with};
use crate::types::{Call, ReadCall, Reply};
use measure::Measure;
use network::stores::{EditableStore, Store};
use routes::hop;
use std::alloc::{AllocError, Global};
use table::types::Table;

// Makes a call that leaves the links as they are. Whatever plain board the store and the table memory stand for, the answer is the one
// that it wants, and they stand for the plain board after the call then. A `match`, here and in `play`, since a call is a record that the
// plain board judges.
pub fn play_read<S: Store, M: Measure>(
    heap: Global,
    store: &S,
    table: &mut Table<'_, '_, M::Cost>,
    call: ReadCall,
) -> Result<Reply<M::Cost>, AllocError>
    ensures same { SameMemory table.old table.new }
    ensures plays { (limit : OptionT ℕ) → Plays M.measure (board_of (S.roster store.now) (S.book store.now) limit table.old) (board_of (S.roster store.now) (S.book store.now) limit table.new) (ReadT call) result }
{
    match call {
        ReadCall::Settle {
            destination,
            waiting,
            numbers,
        } => {
            let answer = settle_with::<S, M>(heap, store, table, destination, waiting, numbers)?;
            Ok(Reply::Settled(answer))
        }
        ReadCall::Hop {
            source,
            class,
            destination,
        } => {
            let answer = hop::<S, M>(store, table, source, class, destination);
            Ok(Reply::Hopped(answer))
        }
        ReadCall::Send {
            source,
            destination,
            room,
        } => {
            let (answer, list) = send_with::<S, M>(heap, store, table, source, destination, room)?;
            Ok(Reply::Sent(answer, list))
        }
    }
}

// Makes a call on a board whose store takes edits; the same holds of it.
pub fn play<S: EditableStore, M: Measure>(
    heap: Global,
    store: &mut S,
    table: &mut Table<'_, '_, M::Cost>,
    call: Call,
) -> Result<Reply<M::Cost>, AllocError>
    ensures same { SameMemory table.old table.new }
    ensures plays { Plays M.measure (board_of (S.Store.roster store.old) (S.Store.book store.old) (SomeT (S.limit store.old)) table.old) (board_of (S.Store.roster store.new) (S.Store.book store.new) (SomeT (S.limit store.new)) table.new) call result }
{
    match call {
        Call::Edit(edit) => Ok(Reply::Edited(edit_board(store, table, edit))),
        Call::Read(read) => play_read::<S, M>(heap, store, table, read),
    }
}
