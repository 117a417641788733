mod equations;
mod fields;
mod items;
mod nodes;

pub use fields::Put;
use syntax::cell::Cell;

// No block has more bytes. The number stands here, where contracts have it and a wrong one is refused.
pub const MOST_BYTES: usize = 2048;

// A place among the bits of the bytes that are written, and the cells that the expressions lie in.
#[derive(Drop)]
pub struct BitWriter<'a> {
    pub cells: &'a [Cell],
    pub out: &'a mut [u8; MOST_BYTES],
    pub at: usize,
}
