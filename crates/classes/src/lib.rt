// Systems of classes, by which information is kept apart: what a system is, three that cover many needs,
// and what can be done with the classes of any.
#![tactic(auto)]

pub mod bounds;
pub mod compartments;
pub mod laws;
pub mod pair;
pub mod ranks;
pub mod system;
#[cfg(test)]
mod tests;
