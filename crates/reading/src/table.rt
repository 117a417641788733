ghost use Rattle.std.specs.Prelude.{◌≡◌, [], length};
ghost use Rattle.syntax.specs.Decoder.{decode_into};
ghost use Rattle.layout.specs.Held.{Holds, PastBlank, read_answer, read_block};
ghost use Rattle.reading.specs.Storing.{Grown, GivesBlock, made};

use crate::reader::BlockReader;
use layout::store::CellStore;
use layout::table::{Nodes, Table};
use syntax::fault::ReadFault;

// No block has more cells, since each takes at least four of its bits.
const MOST_CELLS: usize = 4096;

// No block has more bytes. This number and the one above stand in each crate whose contracts have them, where a wrong one
// is refused.
const MOST_BYTES: usize = 2048;

// Blanks the rows.
fn clear(table: &mut Table<'_>)
    requires { PastBlank table.old }
    ensures blank { Holds table.new [] }
    ensures long { length table.new.store.cells.now ≡ length table.old.store.cells.now }
{
    table.nodes.clear();
    table.store.clear();
}

// Reads a block into a vector and a store that have none of it; at a fault they have a part of it.
#[tactic(auto, unfolding(syntax::specs::Decoder::decode), using(crate::proofs::Loading::grown_to))]
fn load(bytes: &[u8], nodes: &mut Nodes, store: &mut CellStore<'_>) -> Result<(), ReadFault>
    requires none { nodes.old.items ≡ [] }
    requires unused { store.old.used ≡ 0 }
    ensures gives { GivesBlock (decode_into (length store.old.cells.now) bytes.now) store.old store.new (made result nodes.new) }
    ensures grown { Grown store.old store.new }
{
    if store.cells.len() < MOST_CELLS {
        return Err(ReadFault::TooFewCells);
    }
    if bytes.is_empty() || bytes.len() > MOST_BYTES {
        return Err(ReadFault::BlockLength);
    }
    let mut reader = BlockReader {
        bytes,
        at: 0,
        store,
    };
    reader.nodes(nodes)?;
    reader.filling()?;
    Ok(())
}

// Reads a block; at a fault the rows are blank.
#[tactic(auto, using(crate::proofs::Loading::none_used))]
pub fn read(table: &mut Table<'_>, bytes: &[u8]) -> Result<(), ReadFault>
    requires { PastBlank table.old }
    ensures answer { result ≡ read_answer (decode_into (length table.old.store.cells.now) bytes.now) }
    ensures rows { Holds table.new (read_block (decode_into (length table.old.store.cells.now) bytes.now)) }
    ensures long { length table.new.store.cells.now ≡ length table.old.store.cells.now }
{
    clear(table);
    // A match and no `?`: at a fault the rows are blanked again.
    match load(bytes, &mut table.nodes, &mut table.store) {
        Ok(()) => Ok(()),
        Err(fault) => {
            clear(table);
            Err(fault)
        }
    }
}
