ghost use Rattle.std.specs.Prelude.{◌≡◌};
ghost use Rattle.script.specs.Names.{node_name_in, flow_name_in};

use layout::node::Node;
use std::fmt;

// The name of a node or of a flow: its place in its group, or its number where it is not there.
#[derive(Clone, Copy, Debug, PartialEq, Eq)]
pub enum Name {
    OfNode(usize),
    Input(usize),
    Output(usize),
    Local(usize),
    NoNode(usize),
    NoFlow(usize),
}

// No group has more than 15, and with these letters no name is a reserved word.
fn letter(place: usize) -> char {
    if place < 15 {
        char::from(b'a' + place as u8)
    } else {
        '?'
    }
}

impl fmt::Display for Name {
    fn fmt<W: fmt::Write>(&self, f: &mut fmt::Formatter<W>) -> fmt::Result {
        match *self {
            Name::OfNode(place) => write!(f, "node{}", letter(place)),
            Name::Input(place) => write!(f, "in{}", letter(place)),
            Name::Output(place) => write!(f, "out{}", letter(place)),
            Name::Local(place) => write!(f, "loc{}", letter(place)),
            Name::NoNode(number) => write!(f, "?node{number}"),
            Name::NoFlow(number) => write!(f, "?flow{number}"),
        }
    }
}

// The name of a node of a block of `count` nodes.
pub fn node_name(count: usize, number: usize) -> Name
    ensures { result ≡ node_name_in count number }
{
    if number < count {
        Name::OfNode(number)
    } else {
        Name::NoNode(number)
    }
}

// The name of a flow of a node: its inputs come first, then its outputs, then its locals.
pub fn flow_name(node: &Node, number: usize) -> Name
    ensures { result ≡ flow_name_in node.now number }
{
    let outputs = usize::from(node.inputs);
    let locals = outputs + usize::from(node.outputs);
    if number < outputs {
        Name::Input(number)
    } else if number < locals {
        Name::Output(number - outputs)
    } else if number - locals < usize::from(node.locals) {
        Name::Local(number - locals)
    } else {
        Name::NoFlow(number)
    }
}
