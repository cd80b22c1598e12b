// A rotation tried by hand: the record and the store are kept in a file. The words of a call: rotate, the step, the file, what the step takes.
#![tactic(auto)]

pub mod steps;
