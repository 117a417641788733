ghost use Rattle.std.specs.Prelude.{◌≡◌, length, vec_len, IfOk, string_bytes};
ghost use Rattle.syntax.specs.Decoder.{decode_into};
ghost use Rattle.syntax.specs.Encoder.{encode};
ghost use Rattle.layout.specs.Held.{block_in};
ghost use Rattle.script.specs.Answers.{AnswerTold, ListTold, block_after};
ghost use Rattle.script.specs.Dry.{ExaminedFrom, ExamineTold};
ghost use Rattle.script.specs.Outcomes.{written_text};

use crate::command::Call;
use crate::listing::listing;
use crate::outcome::{outcome, refusal, write_outcome};
use block::rows::Rows;
use examine::driver::examine;
use std::alloc::{AllocError, Global};
use syntax::cell::Cell;
use syntax::fault::Fault;

// No block has more cells, and none has more bytes: numbers of this crate, since contracts here have them.
const BLOCK_CELLS: usize = 4096;

const BLOCK_BYTES: usize = 2048;

// Cells for rows that any block fits.
fn block_cells(heap: Global) -> Result<Vec<Cell>, AllocError>
    ensures { IfOk result (λ cells. vec_len cells ≡ 4096) }
{
    vec![in heap; Cell::Flow(0); BLOCK_CELLS]
}

// What `list` prints of a block, which is read into rows of its own. So does `examine_block`: where one function made
// the rows for both, the closure that it lends them to would stand in its clause.
fn list_block(heap: Global, bytes: &[u8]) -> Result<String, AllocError>
    ensures { IfOk result (λ s. ListTold (decode_into 4096 bytes.now) (string_bytes s)) }
{
    let mut cells = block_cells(heap)?;
    let mut rows = Rows::new(cells.as_mut_slice());
    match rows.read(bytes) {
        Ok(()) => listing(heap, &rows),
        Err(e) => refusal(heap, "list", e),
    }
}

// What `write` prints of the block that the rows stand for.
fn write_rows(heap: Global, rows: &Rows<'_>) -> Result<String, AllocError>
    ensures { IfOk result (λ s. string_bytes s ≡ written_text (encode (block_in rows.now.table))) }
{
    let mut out = [0; BLOCK_BYTES];
    let answer = rows.write(&mut out);
    write_outcome(heap, answer, &out)
}

// Reads a block into these rows and examines it.
fn read_and_examine(rows: &mut Rows<'_>, bytes: &[u8]) -> Result<(), Fault>
    ensures { ExaminedFrom (length rows.old.table.store.cells.now) bytes.now result }
{
    rows.read(bytes)?;
    examine(rows)?;
    Ok(())
}

// What `examine` prints of a block, which is read into rows of its own.
fn examine_block(heap: Global, bytes: &[u8]) -> Result<String, AllocError>
    ensures { IfOk result (λ s. ExamineTold 4096 bytes.now (string_bytes s)) }
{
    let mut cells = block_cells(heap)?;
    let mut rows = Rows::new(cells.as_mut_slice());
    outcome(heap, "examine", read_and_examine(&mut rows, bytes))
}

// Does a call on the rows, and gives what it prints.
pub fn answer_to(heap: Global, rows: &mut Rows<'_>, call: &Call) -> Result<String, AllocError>
    ensures told { IfOk result (λ s. AnswerTold (length rows.old.table.store.cells.now) (block_in rows.old.table) call.now (string_bytes s)) }
    ensures stands { block_in rows.new.table ≡ block_after (length rows.old.table.store.cells.now) (block_in rows.old.table) call.now }
{
    match call {
        Call::Read(bytes) => outcome(heap, "read", rows.read(bytes.as_slice())),
        Call::Write => write_rows(heap, rows),
        Call::List(bytes) => list_block(heap, bytes.as_slice()),
        Call::Examine(bytes) => examine_block(heap, bytes.as_slice()),
    }
}
