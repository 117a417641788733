// Rows are written back as bytes, field by field.
#![tactic(auto)]

pub mod table;
mod writer;
