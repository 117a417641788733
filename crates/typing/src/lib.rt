// The kinds and clocks of expressions, worked out cell by cell.
#![tactic(auto)]

pub mod clocks;
pub mod kinds;
pub mod part;
pub mod shared;
mod waiting;
pub mod walk;
