// Examining: whether a block that was read may run, and if not, where it is at fault first.
#![tactic(auto)]

pub mod asking;
pub mod driver;
