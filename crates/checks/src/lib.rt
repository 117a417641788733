// Tests of a node that look at its rows alone, with no trees: what examining asks of numbers, counts, clocks,
// definitions and size.
#![tactic(auto)]

pub mod clocks;
pub mod definitions;
pub mod fit;
pub mod place;
pub mod size;
