#![tactic(auto)]

pub mod names;
pub mod walk;
