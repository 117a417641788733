// The order in which the equations of a node are worked out, if there is one.
#![tactic(auto)]

mod naming;
pub mod ordering;
mod table;
mod waiting;
