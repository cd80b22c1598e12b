#![tactic(auto)]

// Requests for an RPC, and the patterns that they are held against.
pub mod pattern;
mod request;
mod verdict;

pub use request::Request;
pub use verdict::Verdict;
