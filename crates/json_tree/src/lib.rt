#![tactic(auto)]

pub mod member;
pub mod names;
