#![tactic(auto)]

// Requests and answers of the single-path verdict and the tree verdict. What refuses a call is its error.
pub mod answer;
pub mod request;

use table::RuleNumber;

// The answer of the single-path verdict.
#[derive(Clone, Copy)]
pub enum PathAnswer {
    Permit(RuleNumber),
    Deny(RuleNumber),
    // No rule matches: deny.
    Default,
}

// The answer of the tree verdict.
#[derive(Clone, Copy)]
pub enum TreeAnswer {
    All,
    None,
    Mixed(RuleNumber),
}
