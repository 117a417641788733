// The tables of an expanded program: rows of flows in the order of work, and the cells of their expressions.
#![tactic(auto)]

pub mod row;
