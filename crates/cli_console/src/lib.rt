// What the command line reads and prints: files by name, facts, refusals in words.
#![tactic(auto)]

pub mod input;
pub mod lines;
mod quote;
pub mod refused;
pub mod rows;
pub mod say;
pub mod source;
