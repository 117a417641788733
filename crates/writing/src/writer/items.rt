ghost use Rattle.syntax.specs.Encoder.{cell_fields, flow_fields, clock_fields, constant_fields, result_fields};

use crate::writer::{BitWriter, Put};
use syntax::cell::Cell;
use syntax::header::{Constant, DerivedClock, Flow};

impl Put for Cell {
    ghost fields = { λ _ cell. cell_fields cell };

    fn put(&self, writer: &mut BitWriter<'_>) {
        match *self {
            Cell::Flow(n) => {
                writer.put(4, 0);
                n.put(writer);
            }
            Cell::Truth(t) => {
                writer.put(4, 1);
                writer.put(1, u32::from(t));
            }
            Cell::Number(n) => {
                writer.put(4, 2);
                writer.put(32, n.cast_unsigned());
            }
            Cell::Unary(op) => {
                writer.put(4, 3);
                writer.put(1, u32::from(op));
            }
            Cell::Binary(op) => {
                writer.put(4, 4);
                writer.put(4, u32::from(op));
            }
            Cell::When(n, side) => {
                writer.put(4, 5);
                n.put(writer);
                writer.put(1, u32::from(side));
            }
            Cell::Merge(n) => {
                writer.put(4, 6);
                n.put(writer);
            }
            Cell::If => writer.put(4, 7),
        }
    }
}

impl Put for Flow {
    ghost fields = { λ _ flow. flow_fields flow };

    fn put(&self, writer: &mut BitWriter<'_>) {
        writer.put(1, u32::from(self.kind));
        writer.put(3, u32::from(self.clock));
    }
}

impl Put for DerivedClock {
    ghost fields = { λ _ clock. clock_fields clock };

    fn put(&self, writer: &mut BitWriter<'_>) {
        writer.put(3, u32::from(self.parent));
        self.flow.put(writer);
        writer.put(1, u32::from(self.side));
    }
}

impl Put for Constant {
    ghost fields = { λ _ constant. constant_fields constant };

    fn put(&self, writer: &mut BitWriter<'_>) {
        match *self {
            Constant::Truth(t) => {
                writer.put(1, 0);
                writer.put(1, u32::from(t));
            }
            Constant::Number(n) => {
                writer.put(1, 1);
                writer.put(32, n.cast_unsigned());
            }
        }
    }
}

// A flow by its number, as the results of a call name it.
impl Put for u8 {
    ghost fields = { λ _ flow. result_fields flow };

    fn put(&self, writer: &mut BitWriter<'_>) {
        writer.put(5, u32::from(*self));
    }
}
