// Scripts of calls on a board: reading one, running it, and telling the answers in words.
#![tactic(auto)]

pub mod answers;
mod lines;
pub mod parse;
pub mod run;
#[cfg(test)]
mod tests;
pub mod types;
mod words;
