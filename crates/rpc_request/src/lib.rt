#![tactic(auto)]

pub mod headers;
pub mod index;
pub mod request;
