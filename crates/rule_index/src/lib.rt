#![tactic(auto)]

// The rules of a loaded table, found by what a request that they match must have: so few are tried. Each rule has a clue, a string that every path
// which it covers has too, and stands in the bucket of its subject and its clue, the best rule first.
pub mod clue;
pub mod find;
pub mod keys;
pub mod lookup;
pub mod scan;
mod uses;
