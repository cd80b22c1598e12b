#![tactic(auto)]

// Path text: reading it to path bytes.
pub mod reader;
