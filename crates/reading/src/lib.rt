// Bytes are read into rows, field by field.
#![tactic(auto)]

mod reader;
pub mod table;
