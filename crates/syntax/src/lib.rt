// What a block is made of, how its bits are laid out, and why one is refused. The layout is stated by
// definitions, a decoder and an encoder, and it is proved here that they undo each other.
#![tactic(auto)]

pub mod cell;
pub mod fault;
pub mod header;
pub mod laws;
