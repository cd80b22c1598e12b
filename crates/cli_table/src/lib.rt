#![tactic(auto)]

// The commands on rule tables and paths.
pub mod explanation;
pub mod paths;
pub mod tables;
