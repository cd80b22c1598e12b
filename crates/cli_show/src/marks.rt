// What a program tells by its exit status: the worst that it did.
use crate::console::Console;
use std::process::ExitCode;

// Three steps, each worse than the one before: what counts is their order.
#[derive(Clone, Copy, PartialEq, Eq, PartialOrd, Ord)]
pub enum Outcome {
    Answered,
    Refused,
    Complained,
}

fn mark(console: &mut Console, outcome: Outcome) {
    console.outcome = console.outcome.max(outcome);
}

// Something was refused.
pub fn refusal(console: &mut Console) {
    mark(console, Outcome::Refused);
}

// Something was complained of.
pub fn complaint(console: &mut Console) {
    mark(console, Outcome::Complained);
}

// The program came to its end.
pub fn end(console: &Console) -> ExitCode {
    match console.outcome {
        Outcome::Answered => ExitCode::SUCCESS,
        Outcome::Refused => ExitCode::from(1),
        Outcome::Complained => ExitCode::from(2),
    }
}
