#![tactic(auto)]

// The single-path verdict over the decoded bytes of a checked table.
pub mod best;
pub mod decide;
pub mod rule;
pub mod rules;
