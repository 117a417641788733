use crate::listing::names::flow_name;
use layout::node::Node;
use std::fmt;
use syntax::cell::{Cell, UnaryOp};

// A cell alone, in its node.
#[derive(Clone, Copy)]
pub struct Shown<'a> {
    pub node: &'a Node,
    pub cell: Cell,
}

// By its code, as the cell has it.
pub fn binary_word(code: u8) -> &'static str {
    match code {
        0 => "and",
        1 => "or",
        2 => "xor",
        3 => "+",
        4 => "-",
        5 => "*",
        6 => "/",
        7 => "<",
        8 => "=",
        _ => "?operator",
    }
}

impl fmt::Display for Shown<'_> {
    fn fmt<W: fmt::Write>(&self, f: &mut fmt::Formatter<W>) -> fmt::Result {
        let flow_name = |flow: u8| flow_name(self.node, usize::from(flow));
        match self.cell {
            Cell::Flow(flow) => write!(f, "{}", flow_name(flow)),
            Cell::Truth(truth) => write!(f, "{truth}"),
            Cell::Number(number) => write!(f, "{number}"),
            Cell::Unary(UnaryOp::Not) => f.write_str("not"),
            // `-` is the word of a binary one
            Cell::Unary(UnaryOp::Minus) => f.write_str("minus"),
            Cell::Binary(code) => f.write_str(binary_word(code)),
            Cell::When(flow, side) => write!(f, "when({} = {side})", flow_name(flow)),
            Cell::Merge(flow) => write!(f, "merge({})", flow_name(flow)),
            Cell::If => f.write_str("if"),
        }
    }
}
