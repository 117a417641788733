use flat::row::Clock;
use layout::node::Span;
use syntax::cell::UnaryOp;
use syntax::header::{Constant, Kind};

// One step of an expanded expression: a cell as it was read, but its flows go by their numbers in the program. No
// instance of one generic type with `Cell`: an alias could keep its parameter out of the code, but not out of the name
// that the specifications and proofs of all the crates below say.
#[derive(Clone, Copy, Debug, PartialEq, Eq)]
pub enum WideCell {
    Flow(u16),
    Truth(bool),
    Number(i32),
    Unary(UnaryOp),
    // By its code, as the cell has it.
    Binary(u8),
    When(u16, bool),
    Merge(u16),
    If,
}

pub const BLANK_WIDE_CELL: WideCell = WideCell::Flow(0);

// Where a flow's values come from.
#[derive(Clone, Copy, Debug, PartialEq, Eq)]
pub enum Source {
    Input,
    Plain(Span),
    Delay(Constant, Span),
}

// A flow of the program. Rows stand in an order in which the flows can be worked out.
#[derive(Clone, Copy, Debug, PartialEq, Eq)]
pub struct FlowRow {
    pub flow: u16,
    pub kind: Kind,
    pub clock: Clock,
    pub source: Source,
}

pub const BLANK_ROW: FlowRow = FlowRow {
    flow: 0,
    kind: Kind::Truth,
    clock: Clock::Base,
    source: Source::Input,
};
