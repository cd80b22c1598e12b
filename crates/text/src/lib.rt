#![tactic(auto)]

pub mod byte;
pub mod fill;
pub mod frame;
pub mod string;
