ghost use Rattle.std.specs.Prelude.{◌≡◌, ℕ, ◌≤◌, [], length, Ok, slice_index_or};
ghost use Rattle.syntax.specs.Decoder.{decode_into};
ghost use Rattle.syntax.specs.Encoder.{encode};
ghost use Rattle.layout.specs.Blanks.{blank_cell};
ghost use Rattle.layout.specs.Layout.{expression_in};
ghost use Rattle.layout.specs.Held.{Holds, block_in, read_answer, read_block, write_answer, write_bytes};

use crate::rows::Rows;
use layout::node::{Node, Span};
use layout::parts::expression;
use layout::store::{BLANK_CELL, CellStore};
use layout::table::Table;
use layout::up_to::UpTo;
use reading::table as read_table;
use syntax::cell::Cell;
use syntax::fault::{ReadFault, WriteFault};
use writing::table as write_table;

#[tactic(auto, using(bits::proofs::Lists::read_replicated))]
fn blank_all(cells: &mut [Cell])
    ensures { (i : ℕ) → slice_index_or cells.new i blank_cell ≡ blank_cell }
{
    cells.fill(BLANK_CELL);
}

impl<'m> Rows<'m> {
    // Blank rows over lent cells, all of which are blanked.
    pub fn new(cells: &'m mut [Cell]) -> Rows<'m>
        ensures blank { Holds result.table [] }
        ensures stands { block_in result.table ≡ [] }
        ensures long { length result.table.store.cells.now ≡ length cells.old }
    {
        blank_all(cells);
        Rows {
            table: Table {
                nodes: UpTo::new(),
                store: CellStore { cells, used: 0 },
            },
        }
    }

    // Reads a block. Where it is refused the rows are blank.
    pub fn read(&mut self, bytes: &[u8]) -> Result<(), ReadFault>
        ensures answer { result ≡ read_answer (decode_into (length self.old.table.store.cells.now) bytes.now) }
        ensures rows { Holds self.new.table (read_block (decode_into (length self.old.table.store.cells.now) bytes.now)) }
        ensures stands { block_in self.new.table ≡ read_block (decode_into (length self.old.table.store.cells.now) bytes.now) }
        ensures back { result ≡ Ok tt → encode (block_in self.new.table) ≡ bytes.now }
        ensures long { length self.new.table.store.cells.now ≡ length self.old.table.store.cells.now }
    {
        read_table::read(&mut self.table, bytes)
    }

    // Writes the block and zeros over the first 2,048 bytes, and answers how many the block has.
    #[tactic(auto, using(writing::proofs::Wholes::readable_fits))]
    pub fn write(&self, out: &mut [u8]) -> Result<usize, WriteFault>
        ensures answer { result ≡ write_answer (block_in self.now.table) (length out.old) }
        ensures bytes { out.new ≡ write_bytes (block_in self.now.table) out.old }
    {
        write_table::write(&self.table, out)
    }

    // The nodes of the block; none where the rows are blank.
    pub fn nodes(&self) -> &[Node]
        ensures part { result.now ≡ self.now.table.nodes.items }
        ensures few { length result.now ≤ 8 }
    {
        &self.table.nodes
    }

    // The cells of all expressions, and what is lent past them.
    pub fn cells(&self) -> &[Cell]
        ensures { result.now ≡ self.now.table.store.cells.now }
    {
        self.table.store.cells
    }

    // The cells of an expression.
    pub fn expression(&self, span: Span) -> &[Cell]
        ensures { result.now ≡ expression_in self.now.table.store.cells.now span }
    {
        expression(self.table.store.cells, span)
    }
}
