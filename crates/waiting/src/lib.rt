// A waiting list over lent memory, for any measure of cost.
#![tactic(auto)]

pub mod list;
#[cfg(test)]
mod tests;
pub mod types;
