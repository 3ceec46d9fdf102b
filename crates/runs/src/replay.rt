// A list of calls on a board, from its opening on.
ghost use Rattle.std.specs.Prelude.{map, Some as SomeT, None as NoneT};
ghost use Rattle.table.specs.Memory.{SameMemory};
ghost use Rattle.runs.specs.declared.types.Call.TheVariants.{Read as ReadT};
ghost use Rattle.runs.specs.Plain.{board_of};
ghost use Rattle.runs.specs.Runs.{Replays};

use crate::play::{play, play_read};
use crate::types::{AsCall, Call, ReadCall, Reply, RunRefusal};
use board::edits::open;
use measure::Measure;
use network::stores::{EditableStore, Store};
use std::alloc::Global;
use table::types::Table;

// Opens the board, makes every call of the list in its order, and gives every answer.
pub fn replay<S: EditableStore, M: Measure>(
    heap: Global,
    store: &mut S,
    table: &mut Table<'_, '_, M::Cost>,
    calls: &[Call],
) -> Result<Vec<Reply<M::Cost>>, RunRefusal>
    ensures same { SameMemory table.old table.new }
    ensures replays { Replays M.measure (board_of (S.Store.roster store.old) (S.Store.book store.old) (SomeT (S.limit store.old)) table.old) (board_of (S.Store.roster store.new) (S.Store.book store.new) (SomeT (S.limit store.new)) table.new) calls.now result }
{
    replay_of::<S, M, Call>(heap, store, table, calls)
}

// The same over anything that has a call to make.
pub fn replay_of<S: EditableStore, M: Measure, T: AsCall>(
    heap: Global,
    store: &mut S,
    table: &mut Table<'_, '_, M::Cost>,
    calls: &[T],
) -> Result<Vec<Reply<M::Cost>>, RunRefusal>
    ensures same { SameMemory table.old table.new }
    ensures replays { Replays M.measure (board_of (S.Store.roster store.old) (S.Store.book store.old) (SomeT (S.limit store.old)) table.old) (board_of (S.Store.roster store.new) (S.Store.book store.new) (SomeT (S.limit store.new)) table.new) (map T.call calls.now) result }
{
    open(store, table)?;
    let mut replies = Vec::new(heap);
    for call in calls {
        let reply = play::<S, M>(heap, store, table, call.as_call())?;
        replies.push(reply)?;
    }
    Ok(replies)
}

// The same over a store that is only read.
// A loop of its own: one loop for both, given the function that plays a call, is longer, since what that promises is said again where
// it is passed.
pub fn replay_read<S: Store, M: Measure>(
    heap: Global,
    store: &S,
    table: &mut Table<'_, '_, M::Cost>,
    calls: &[ReadCall],
) -> Result<Vec<Reply<M::Cost>>, RunRefusal>
    ensures same { SameMemory table.old table.new }
    ensures replays { Replays M.measure (board_of (S.roster store.now) (S.book store.now) NoneT table.old) (board_of (S.roster store.now) (S.book store.now) NoneT table.new) (map ReadT calls.now) result }
{
    open(store, table)?;
    let mut replies = Vec::new(heap);
    for read in calls {
        let reply = play_read::<S, M>(heap, store, table, *read)?;
        replies.push(reply)?;
    }
    Ok(replies)
}
