// ASes, the links between them, and what a store of links lets ask and edit.
#![tactic(auto)]

pub mod roster;
pub mod steps;
pub mod stores;
pub mod types;
