// Link lists: their faults, and how one is entered into a board.
#![tactic(auto)]

pub mod faults;
pub mod load;
pub mod types;
