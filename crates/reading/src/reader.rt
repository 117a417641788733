ghost use Rattle.std.specs.Prelude.{◌*◌, ◌≤◌, length};

use layout::store::CellStore;

mod equations;
mod fields;
mod items;
mod nodes;
mod rows;

// A place among the bits of the bytes of a block, and the store of its cells. There are cells for all bits
// that may be left, since each takes at least four.
#[derive(Drop)]
pub struct BlockReader<'a, 't, 'm> {
    pub bytes: &'a [u8],
    pub at: usize,
    pub store: &'t mut CellStore<'m>,
    ghost within: { at ≤ 8 * length bytes.now },
    ghost short: { length bytes.now ≤ 2048 },
    ghost taken: { 4 * store.now.used ≤ at },
    ghost wide: { 4096 ≤ length store.now.cells.now },
}
