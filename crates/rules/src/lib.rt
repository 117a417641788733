// What examining asks of a block: the rules as definitions, the faults, and laws of the definitions.
#![tactic(auto)]

pub mod fault;
pub mod laws;
pub mod view;
