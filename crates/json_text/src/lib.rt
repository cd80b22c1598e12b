#![tactic(auto)]

pub mod literal;
pub mod number;
pub mod scan;
pub mod string;
pub mod value;
