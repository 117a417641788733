// What shape, kinds and clocks ask of an equation.
#![tactic(auto)]

pub mod clocked;
pub mod kinded;
pub mod shaped;
