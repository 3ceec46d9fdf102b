// Runs of calls on a board: each call is answered as the plain board wants, and so is every list of calls. Store and table memory are
// handed to each call (a rule).
#![tactic(auto)]

ghost use Rattle.runs.specs.Theorems.{OneAnswer};

mod calls;
pub mod play;
pub mod replay;
pub mod types;

use measure::Measure;

// The plain board wants one answer to a call, and no other.
pub fn one_answer<M: Measure>()
    ensures { OneAnswer M.measure }
{}
