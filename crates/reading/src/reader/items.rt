ghost use Rattle.std.specs.Prelude.{◌≡◌, ◌+◌, ◌≤◌, IfOk, OnOk};
ghost use Rattle.syntax.specs.Decoder.{read_cell, read_constant, read_form_number, read_count, read_mark};
ghost use Rattle.reading.specs.Storing.{Takes, TakesAs, form_code};

use crate::reader::BlockReader;
use syntax::cell::{Cell, UnaryOp};
use syntax::fault::ReadFault;
use syntax::header::Constant;

// How an equation goes on after its clock.
#[derive(Clone, Copy, Debug, PartialEq, Eq)]
pub enum FormKind {
    Plain,
    Delay,
    Call,
}

// A number with no meaning is refused where it is read: a method that took the test as a closure would be no
// plainer, since its contract is longer than the tests.
impl BlockReader<'_, '_, '_> {
    // A cell, by its operator.
    #[tactic(auto, unfolding(syntax::specs::Decoder::read_cell))]
    pub fn cell(&mut self) -> Result<Cell, ReadFault>
        ensures takes { Takes read_cell self.old self.new result }
        ensures four { OnOk result (self.old.at + 4 ≤ self.new.at) }
    {
        let at = self.at;
        match self.take(4)? {
            0 => Ok(Cell::Flow(self.flow()?)),
            1 => Ok(Cell::Truth(self.bit()?)),
            2 => Ok(Cell::Number(self.take(32)?.cast_signed())),
            3 => Ok(Cell::Unary(UnaryOp::from(self.bit()?))),
            4 => {
                let from = self.at;
                let n = self.byte(4)?;
                if n < 9 {
                    Ok(Cell::Binary(n))
                } else {
                    Err(ReadFault::NoMeaning { bit: from })
                }
            }
            5 => {
                let flow = self.flow()?;
                let side = self.bit()?;
                Ok(Cell::When(flow, side))
            }
            6 => Ok(Cell::Merge(self.flow()?)),
            7 => Ok(Cell::If),
            _ => Err(ReadFault::NoMeaning { bit: at }),
        }
    }

    // The first value of a delay.
    #[tactic(auto, unfolding(syntax::specs::Decoder::read_constant))]
    pub fn constant(&mut self) -> Result<Constant, ReadFault>
        ensures { Takes read_constant self.old self.new result }
    {
        if self.bit()? {
            Ok(Constant::Number(self.take(32)?.cast_signed()))
        } else {
            Ok(Constant::Truth(self.bit()?))
        }
    }

    #[tactic(auto, unfolding(syntax::specs::Decoder::read_form_number))]
    pub fn form_kind(&mut self) -> Result<FormKind, ReadFault>
        ensures { TakesAs form_code read_form_number self.old self.new result }
    {
        let at = self.at;
        match self.take(2)? {
            0 => Ok(FormKind::Plain),
            1 => Ok(FormKind::Delay),
            2 => Ok(FormKind::Call),
            _ => Err(ReadFault::NoMeaning { bit: at }),
        }
    }

    // How many equations a node has, 1 to 23.
    #[tactic(auto, unfolding(syntax::specs::Decoder::read_count))]
    pub fn equation_count(&mut self) -> Result<u8, ReadFault>
        ensures takes { Takes read_count self.old self.new result }
        ensures bound { IfOk result (λ n. n ≤ 23) }
    {
        let at = self.at;
        let n = self.byte(5)?;
        if (1..=23).contains(&n) {
            Ok(n)
        } else {
            Err(ReadFault::NoMeaning { bit: at })
        }
    }

    // The mark by which a block begins.
    #[tactic(auto, unfolding(syntax::specs::Decoder::read_mark))]
    pub fn mark(&mut self) -> Result<(), ReadFault>
        ensures { TakesAs (λ _. 183) read_mark self.old self.new result }
    {
        let at = self.at;
        if self.take(8)? == 0xb7 {
            Ok(())
        } else {
            Err(ReadFault::NoMeaning { bit: at })
        }
    }
}
