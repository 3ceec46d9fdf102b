// Stores of links.
#![tactic(auto)]

mod entries;
pub mod grid;
mod rosters;
pub mod rows;
