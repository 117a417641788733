ghost use Rattle.std.specs.Prelude.{◌≡◌, ℕ, ◌+◌, ◌<◌, ◌≤◌, length, slice_set, slice_index_or};
ghost use Rattle.layout.specs.Blanks.{blank_cell};

use syntax::cell::Cell;

// The lent cells, of which the first `used` hold what was read: a length beside a slice and no vector, since the
// memory is the host's and no call allocates.
#[derive(Drop)]
pub struct CellStore<'m> {
    pub cells: &'m mut [Cell],
    pub used: u16,
}

pub const BLANK_CELL: Cell = Cell::Flow(0);

impl CellStore<'_> {
    // Blanks the used cells.
    pub fn clear(&mut self)
        ensures cells { (i : ℕ) → i < self.old.used → slice_index_or self.new.cells.now i blank_cell ≡ blank_cell }
        ensures past { (i : ℕ) → self.old.used ≤ i → slice_index_or self.new.cells.now i blank_cell ≡ slice_index_or self.old.cells.now i blank_cell }
        ensures long { length self.new.cells.now ≡ length self.old.cells.now }
        ensures used { self.new.used ≡ 0 }
    {
        blank_first(self.cells, usize::from(self.used));
        self.used = 0;
    }

    // One cell more.
    pub fn push(&mut self, cell: Cell)
        requires inside { self.old.used < length self.old.cells.now }
        requires few { self.old.used < 4096 }
        ensures cells { self.new.cells.now ≡ slice_set self.old.cells.now self.old.used cell }
        ensures used { self.new.used ≡ self.old.used + 1 }
    {
        self.cells[usize::from(self.used)] = cell;
        self.used += 1;
    }
}

// Blanks the first `n` cells.
#[tactic(auto, using(std::proofs::lemmas::List::places))]
fn blank_first(cells: &mut [Cell], n: usize)
    ensures first { (i : ℕ) → i < n → slice_index_or cells.new i blank_cell ≡ blank_cell }
    ensures past { (i : ℕ) → n ≤ i → slice_index_or cells.new i blank_cell ≡ slice_index_or cells.old i blank_cell }
{
    let end = n.min(cells.len());
    cells[..end].fill(BLANK_CELL);
}
