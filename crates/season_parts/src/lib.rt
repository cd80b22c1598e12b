#![tactic(auto)]

// The parts of a page on a season that know no table: columns, shares and bars, which rule decided most often, the grid.
pub mod columns;
pub mod figures;
pub mod grid;
pub mod ranking;
