// A board: one store of links and one table memory, handed to each call (a rule).
#![tactic(auto)]

pub mod edits;
pub mod types;
