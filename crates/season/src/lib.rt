#![tactic(auto)]

// The season report: how often each rule of a table decided over a log, and a grid of modes against outcomes.

// The answer of the report.
#[derive(Clone, Copy)]
pub enum Reported {
    // So many bytes were stored.
    Length(usize),
    Refused { number: u8, line: usize },
}
