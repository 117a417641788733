ghost use Rattle.std.specs.Prelude.{◌≡◌};
ghost use Rattle.rules.specs.Views.{node_of};
ghost use Rattle.typing.specs.Waiting.{no_part};
ghost use Rattle.typing.specs.Parts.{flow_part, constant_part, unary_part, binary_part, when_part, merge_part, choice_part};

use crate::clocks::{flow_clock, merge_clock, when_clock};
use crate::kinds::{binary_kind, flow_kind, unary_kind, under_truth};
use crate::shared::shared;
use layout::up_to::Blank;
use rules::view::NodeView;
use syntax::cell::UnaryOp;
use syntax::header::Kind;

// What is known of an expression that waits for its operation: whether it is a merge or an if, and so may not
// stand inside a plain expression, and the kind and clock that it has, if it has them.
#[derive(Clone, Copy, Debug, Default, PartialEq, Eq)]
pub struct Part {
    pub control: bool,
    pub kind: Option<Kind>,
    pub clock: Option<usize>,
}

impl Blank for Part {
    ghost blank = { no_part };

    fn blank() -> Part {
        Part::default()
    }
}

impl Part {
    pub fn of_flow(node: &NodeView<'_>, flow: u8) -> Part
        ensures { result ≡ flow_part (node_of node.now) flow }
    {
        Part {
            control: false,
            kind: Some(flow_kind(node, flow)),
            clock: Some(flow_clock(node, flow)),
        }
    }

    // Constants are on the base clock.
    pub fn of_constant(kind: Kind) -> Part
        ensures { result ≡ constant_part kind }
    {
        Part {
            control: false,
            kind: Some(kind),
            clock: Some(0),
        }
    }

    pub fn unary(op: UnaryOp, a: Part) -> Part
        ensures { result ≡ unary_part op a }
    {
        Part {
            control: false,
            kind: unary_kind(op, a.kind),
            clock: a.clock,
        }
    }

    // By the operator's code, as the cell has it.
    pub fn binary(code: u8, a: Part, b: Part) -> Part
        ensures { result ≡ binary_part code a b }
    {
        Part {
            control: false,
            kind: binary_kind(code, a.kind, b.kind),
            clock: shared(a.clock, b.clock),
        }
    }

    // Kept where the flow has the side.
    pub fn when(node: &NodeView<'_>, flow: u8, side: bool, a: Part) -> Part
        ensures { result ≡ when_part (node_of node.now) flow side a }
    {
        Part {
            control: false,
            kind: under_truth(Some(flow_kind(node, flow)), a.kind),
            clock: when_clock(node, flow, side, a.clock),
        }
    }

    // Chosen by a flow between its true and its false side.
    pub fn merge(node: &NodeView<'_>, flow: u8, a: Part, b: Part) -> Part
        ensures { result ≡ merge_part (node_of node.now) flow a b }
    {
        Part {
            control: true,
            kind: under_truth(Some(flow_kind(node, flow)), shared(a.kind, b.kind)),
            clock: merge_clock(node, flow, a.clock, b.clock),
        }
    }

    // Chosen by a condition.
    pub fn choice(condition: Part, a: Part, b: Part) -> Part
        ensures { result ≡ choice_part condition a b }
    {
        Part {
            control: true,
            kind: under_truth(condition.kind, shared(a.kind, b.kind)),
            clock: shared(condition.clock, shared(a.clock, b.clock)),
        }
    }
}
