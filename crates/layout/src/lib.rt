// How a block lies in rows: nodes in fixed arrays, and the cells of all expressions in lent memory.
#![tactic(auto)]

pub mod node;
pub mod parts;
pub mod store;
pub mod table;
pub mod up_to;
