// Expanded programs: one row for each flow, what a beat of one is, which classes it may be given, and the laws
// of these definitions.
#![tactic(auto)]

pub mod laws;
pub mod row;
pub mod value;
