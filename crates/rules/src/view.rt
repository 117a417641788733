ghost use Rattle.std.specs.Prelude.{◌≤◌, length};

use layout::node::{Equation, Node};
use syntax::cell::Cell;
use syntax::header::{DerivedClock, Flow};

pub mod chain;
pub mod looking;

// A block as it is examined: its nodes, and the cells of all their expressions.
#[derive(Clone, Copy, Debug, PartialEq, Eq)]
pub struct BlockView<'a> {
    pub nodes: &'a [Node],
    pub cells: &'a [Cell],
}

// A block that rows can hold: it has at most 8 nodes.
#[derive(Clone, Copy, Debug, PartialEq, Eq)]
pub struct HeldBlock<'a> {
    pub view: BlockView<'a>,
    ghost few: { length view.nodes.now ≤ 8 },
}

// A node as it is examined: its rows, and the cells of the block. The rows are slices and no `Node`: what takes a view
// asks for no bound on them. It has no method for an expression, since the order and the sizes have cells and no node;
// `flow_at` is like it.
#[derive(Clone, Copy, Debug, PartialEq, Eq)]
pub struct NodeView<'a> {
    pub inputs: u8,
    pub outputs: u8,
    pub locals: u8,
    pub flows: &'a [Flow],
    pub clocks: &'a [DerivedClock],
    pub equations: &'a [Equation],
    pub cells: &'a [Cell],
}
