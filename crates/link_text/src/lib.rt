// The reader over the text of a link list.
#![tactic(auto)]

mod numeral;
pub mod reader;
#[cfg(test)]
mod tests;
pub mod types;
