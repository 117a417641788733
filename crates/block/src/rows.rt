ghost use Rattle.std.specs.Prelude.{◌≡◌, ℕ, ◌≤◌, true, slice_index_or};
ghost use Rattle.layout.specs.Blanks.{blank_cell};
ghost use Rattle.layout.specs.Held.{block_in, is_blank, readable};

use layout::table::Table;

pub mod calls;

// A block as it was read, or blank rows: what they stand for can be read again, and nothing stands past
// their cells.
#[derive(Drop)]
pub struct Rows<'m> {
    table: Table<'m>,
    ghost from_read: { readable (block_in table) ≡ true },
    ghost past_blank: { (i : ℕ) → table.store.used ≤ i → is_blank (slice_index_or table.store.cells.now i blank_cell) ≡ true },
}
