// The numbers that evaluation counts in: what a reckoning of numbers is, two of them, and the operators.
#![tactic(auto)]

pub mod hundredths;
pub mod laws;
pub mod operators;
pub mod points;
pub mod reckoning;
#[cfg(test)]
mod tests;
