#![tactic(auto)]

// Paths in their bytes.
pub mod check;
