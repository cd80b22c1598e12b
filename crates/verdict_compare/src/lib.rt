#![tactic(auto)]

// Comparing paths where their checked bytes stand: a slice, a position in it, and a count. `cover` says which of two tests a walk makes, covering or
// agreeing: they differ at three places, where a path ends, at a key that is given and at one that is not, and two walks would repeat the rest.
pub mod element;
pub mod key;
pub mod paths;
pub mod place;
mod walk;
