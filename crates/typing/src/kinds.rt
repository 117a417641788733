ghost use Rattle.std.specs.Prelude.{◌≡◌, ◌&&◌};
ghost use Rattle.rules.specs.Kinds.{of_kind, unary_kind, binary_kind, under_truth};
ghost use Rattle.rules.specs.Names.{flow_kind};
ghost use Rattle.rules.specs.Views.{node_of};

use crate::shared::shared;
use rules::view::NodeView;
use rules::view::looking::flow_at;
use syntax::cell::UnaryOp;
use syntax::header::Kind;

pub fn flow_kind(node: &NodeView<'_>, flow: u8) -> Kind
    ensures { result ≡ flow_kind (node_of node.now) flow }
{
    flow_at(node.flows, usize::from(flow)).kind
}

// Not works on a truth, minus on a number.
pub fn unary_kind(op: UnaryOp, a: Option<Kind>) -> Option<Kind>
    ensures { result ≡ unary_kind op a }
{
    match (op, a) {
        (UnaryOp::Not, Some(Kind::Truth)) | (UnaryOp::Minus, Some(Kind::Number)) => a,
        _ => None,
    }
}

fn both_are(a: Option<Kind>, b: Option<Kind>, kind: Kind) -> bool
    ensures { result ≡ (of_kind a kind && of_kind b kind) }
{
    a == Some(kind) && b == Some(kind)
}

// And, or and xor work on truths, plus to quotient on numbers; below and same compare numbers. A code is matched
// by ranges and guards, since the project's rules ask for that form here.
pub fn binary_kind(code: u8, a: Option<Kind>, b: Option<Kind>) -> Option<Kind>
    ensures { result ≡ binary_kind code a b }
{
    match code {
        0..=2 if both_are(a, b, Kind::Truth) => Some(Kind::Truth),
        3..=6 if both_are(a, b, Kind::Number) => Some(Kind::Number),
        7..=8 if both_are(a, b, Kind::Number) => Some(Kind::Truth),
        _ => None,
    }
}

// A kind, where what decides is a truth.
pub fn under_truth(decides: Option<Kind>, kind: Option<Kind>) -> Option<Kind>
    ensures { result ≡ under_truth decides kind }
{
    shared(decides, Some(Kind::Truth))?;
    kind
}
