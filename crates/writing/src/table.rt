ghost use Rattle.std.specs.Prelude.{◌≡◌, ◌≤◌, length, map};
ghost use Rattle.syntax.specs.Encoder.{encode, block_fields};
ghost use Rattle.layout.specs.Held.{block_in, write_answer, write_bytes};
ghost use Rattle.layout.specs.Layout.{node_in};
ghost use Rattle.writing.specs.Writing.{size, put_fields};

use crate::writer::{BitWriter, MOST_BYTES};
use layout::table::{Nodes, Table};
use syntax::cell::Cell;
use syntax::fault::WriteFault;

// Writes the fields of a block, and answers how many bits they take.
fn write_fields(cells: &[Cell], nodes: &Nodes, out: &mut [u8; MOST_BYTES]) -> usize
    requires { size (block_fields (map (node_in cells.now) nodes.now.items)) ≤ 16384 }
    ensures bits { result ≡ size (block_fields (map (node_in cells.now) nodes.now.items)) }
    ensures bytes { out.new ≡ put_fields out.old 0 (block_fields (map (node_in cells.now) nodes.now.items)) }
{
    let mut writer = BitWriter::new(cells, out);
    writer.put_block(nodes);
    writer.at
}

// Writes the block and zeros over the first 2,048 bytes, and answers how many the block has.
pub fn write(table: &Table<'_>, out: &mut [u8]) -> Result<usize, WriteFault>
    requires { length (encode (block_in table.now)) ≤ 2048 }
    ensures answer { result ≡ write_answer (block_in table.now) (length out.old) }
    ensures bytes { out.new ≡ write_bytes (block_in table.now) out.old }
{
    let first = out
        .first_chunk_mut::<MOST_BYTES>()
        .ok_or(WriteFault::TooShort)?;
    first.fill(0);
    if table.nodes.is_empty() {
        return Ok(0);
    }
    let bits = write_fields(table.store.cells, &table.nodes, first);
    Ok(bits.div_ceil(8))
}
