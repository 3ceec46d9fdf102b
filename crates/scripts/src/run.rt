// Running a script on a board of the grid store, under the delay measure.
ghost use Rattle.std.specs.Prelude.{IfOk};
ghost use Rattle.scripts.specs.Scripts.{Answers, Refused};

use crate::types::{Script, ScriptCall};
use measure::delay::Delay;
use runs::replay::replay_of;
use runs::types::{Reply, RunRefusal};
use std::alloc::Global;
use stores::grid::{GridStore, MOST_ASES};
use table::types::{Entry, Table};

// The answers to the calls of a script, from a board without links on.
pub fn run_script(heap: Global, script: &Script) -> Result<Vec<Reply<u32>>, RunRefusal>
    ensures answers { IfOk result (λ replies. Answers script.now replies) }
    ensures refused { Refused result }
{
    let mut entries = [Entry::blank(0u32); 2 * MOST_ASES * MOST_ASES];
    let mut marks = [0u8; MOST_ASES];
    let mut store = GridStore::new(&script.roster);
    let mut table = Table {
        entries: &mut entries,
        marks: &mut marks,
    };
    replay_of::<GridStore, Delay, ScriptCall>(heap, &mut store, &mut table, &script.calls)
}
