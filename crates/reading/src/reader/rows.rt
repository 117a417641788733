ghost use Rattle.std.specs.Prelude.{◌≡◌, ℕ, ◌≤◌, List, []};
ghost use Rattle.syntax.specs.declared.cell.Cell.{Cell};
ghost use Rattle.syntax.specs.declared.header.Flow as flow;
ghost use Rattle.syntax.specs.declared.header.DerivedClock as derived_clock;
ghost use Rattle.syntax.specs.Parse.{Parser, field, many};
ghost use Rattle.syntax.specs.Decoder.{read_cell, read_flow, read_clock, read_expression};
ghost use Rattle.syntax.specs.Syntax.{Expression};
ghost use Rattle.layout.specs.Layout.{whole, span_row};
ghost use Rattle.reading.specs.Storing.{ReadsInto, ReadsRows, as_is, no_cells, counted, made, only_cells};

use crate::reader::BlockReader;
use layout::node::Span;
use layout::up_to::{Blank, UpTo};
use syntax::fault::ReadFault;
use syntax::header::{DerivedClock, Flow, Kind};

// What a vector of a node is made of: a row is read at a time, and its cells go into the store.
pub trait Row {
    ghost Item: { Type 0 };

    ghost decoder: { Parser Item };

    ghost row_of: { ℕ → Item → Self };

    ghost cells: { Item → List Cell };

    fn read(reader: &mut BlockReader<'_, '_, '_>) -> Result<Self, ReadFault>
    where
        Self: Sized,
        ensures { ReadsInto row_of cells decoder reader.old reader.new result };
}

impl Row for Flow {
    ghost Item = { flow.Flow };

    ghost decoder = { read_flow };

    ghost row_of = { as_is };

    ghost cells = { no_cells };

    #[tactic(auto, unfolding(syntax::specs::Decoder::read_flow))]
    fn read(reader: &mut BlockReader<'_, '_, '_>) -> Result<Flow, ReadFault> {
        let kind = Kind::from(reader.bit()?);
        let clock = reader.byte(3)?;
        Ok(Flow { kind, clock })
    }
}

impl Row for DerivedClock {
    ghost Item = { derived_clock.DerivedClock };

    ghost decoder = { read_clock };

    ghost row_of = { as_is };

    ghost cells = { no_cells };

    #[tactic(auto, unfolding(syntax::specs::Decoder::read_clock))]
    fn read(reader: &mut BlockReader<'_, '_, '_>) -> Result<DerivedClock, ReadFault> {
        let parent = reader.byte(3)?;
        let flow = reader.flow()?;
        let side = reader.bit()?;
        Ok(DerivedClock { parent, flow, side })
    }
}

// The number of a flow.
impl Row for u8 {
    ghost Item = { ℕ };

    ghost decoder = { field 5 };

    ghost row_of = { as_is };

    ghost cells = { no_cells };

    fn read(reader: &mut BlockReader<'_, '_, '_>) -> Result<u8, ReadFault> {
        reader.flow()
    }
}

// An expression.
impl Row for Span {
    ghost Item = { Expression };

    ghost decoder = { read_expression };

    ghost row_of = { span_row };

    ghost cells = { whole };

    #[tactic(auto, unfolding(syntax::specs::Decoder::read_expression))]
    fn read(reader: &mut BlockReader<'_, '_, '_>) -> Result<Span, ReadFault> {
        let from = reader.store.used;
        let len = reader.count(5)?;
        reader.cells(len)?;
        Ok(Span { from, len })
    }
}

impl BlockReader<'_, '_, '_> {
    // Reads `n` rows into a vector that has none; at a fault it has some of them.
    pub fn fill<T: Row + Blank, const N: usize>(
        &mut self,
        n: u8,
        rows: &mut UpTo<T, N>,
    ) -> Result<(), ReadFault>
        requires fits { n ≤ N }
        requires empty { rows.old.items ≡ [] }
        ensures { ReadsRows T.row_of T.cells (many T.decoder n) self.old self.new (made result rows.new) }
    {
        for _ in 0..n {
            rows.push(T::read(self)?);
        }
        Ok(())
    }

    // Reads `n` rows.
    pub fn rows<T: Row + Blank, const N: usize>(&mut self, n: u8) -> Result<UpTo<T, N>, ReadFault>
        requires { n ≤ N }
        ensures { ReadsRows T.row_of T.cells (many T.decoder n) self.old self.new result }
    {
        let mut rows = UpTo::new();
        self.fill(n, &mut rows)?;
        Ok(rows)
    }

    // Reads how many rows there are, less one, and the rows.
    pub fn counted_rows<T: Row + Blank, const N: usize>(&mut self) -> Result<UpTo<T, N>, ReadFault>
        requires { 8 ≤ N }
        ensures { ReadsRows T.row_of T.cells (counted T.decoder) self.old self.new result }
    {
        let n = self.count(3)?;
        self.rows(n)
    }

    // Reads `n` cells into the store. A loop of its own: they are no rows, and no vector holds them.
    #[tactic(auto, using(crate::proofs::Loops::cells_none))]
    fn cells(&mut self, n: u8) -> Result<(), ReadFault>
        ensures { ReadsInto only_cells whole (many read_cell n) self.old self.new result }
    {
        for _ in 0..n {
            let cell = self.cell()?;
            self.store.push(cell);
        }
        Ok(())
    }
}
