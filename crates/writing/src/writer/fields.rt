ghost use Rattle.std.specs.Prelude.{◌≡◌, ◌-◌, ◌≤◌, [], ◌∷◌, List, length};
ghost use Rattle.syntax.specs.declared.cell.Cell.{Cell};
ghost use Rattle.std.specs.List.{flat_map};
ghost use Rattle.syntax.specs.Encoder.{Field};
ghost use Rattle.writing.specs.Writing.{Room, Wrote};

use crate::writer::{BitWriter, MOST_BYTES};
use bits::writing::put;
use syntax::cell::Cell;

// What is written as fields, given the cells that its expressions lie in. Room is asked of each call, since it depends on
// what is written: no field of the writer could say it.
pub trait Put {
    ghost fields: { List Cell → Self → List Field };

    fn put(&self, writer: &mut BitWriter<'_>)
        requires { Room (fields writer.old.cells.now self.now) writer.old }
        ensures { Wrote (fields writer.old.cells.now self.now) writer.old writer.new };
}

impl<'a> BitWriter<'a> {
    pub fn new(cells: &'a [Cell], out: &'a mut [u8; MOST_BYTES]) -> BitWriter<'a>
        ensures at { result.at ≡ 0 }
        ensures bytes { result.out.now ≡ out.old }
        ensures same_bytes { result.out.ghost_name ≡ out.entry.ghost_name }
        ensures same_cells { result.cells.now ≡ cells.now }
    {
        BitWriter { cells, out, at: 0 }
    }
}

impl BitWriter<'_> {
    // A field. Its width is a number with a bound and no type of its own: wherever a width begins it is a constant, which
    // the check sees.
    pub fn put(&mut self, width: u8, value: u32)
        requires narrow { width ≤ 32 }
        requires room { Room ((width, value) ∷ []) self.old }
        ensures { Wrote ((width, value) ∷ []) self.old self.new }
    {
        // `room` leaves no field out of range
        let at = self.at;
        put(self.out, at, width, value).unwrap();
        self.at += usize::from(width);
    }

    // One less than a count of at least one.
    pub fn put_less_one(&mut self, width: u8, count: usize)
        requires narrow { width ≤ 32 }
        requires few { count ≤ 255 }
        requires room { Room ((width, count - 1) ∷ []) self.old }
        ensures { Wrote ((width, count - 1) ∷ []) self.old self.new }
    {
        self.put(width, count.saturating_sub(1) as u32);
    }

    // One row after another.
    #[tactic(auto, using(crate::proofs::Puts::wrote_none))]
    pub fn put_all<T: Put>(&mut self, rows: &[T])
        requires { Room (flat_map (T.fields self.old.cells.now) rows.now) self.old }
        ensures { Wrote (flat_map (T.fields self.old.cells.now) rows.now) self.old self.new }
    {
        for row in rows {
            row.put(self);
        }
    }

    // So with one less than their count before them.
    pub fn put_list<T: Put>(&mut self, width: u8, rows: &[T])
        requires narrow { width ≤ 32 }
        requires few { length rows.now ≤ 255 }
        requires room { Room ((width, length rows.now - 1) ∷ flat_map (T.fields self.old.cells.now) rows.now) self.old }
        ensures { Wrote ((width, length rows.now - 1) ∷ flat_map (T.fields self.old.cells.now) rows.now) self.old self.new }
    {
        self.put_less_one(width, rows.len());
        self.put_all(rows);
    }
}
