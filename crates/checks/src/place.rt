ghost use Rattle.std.specs.Prelude.{◌≡◌};
ghost use Rattle.rules.specs.Clocks.{is_main};
ghost use Rattle.rules.specs.Names.{node_at};
ghost use Rattle.rules.specs.Views.{block_of, node_of};

use rules::view::looking::node_view;
use rules::view::{BlockView, HeldBlock, NodeView};

// A node, the block in which it is looked at, and its number there.
#[derive(Clone, Copy, Debug, PartialEq, Eq)]
pub struct NodeInBlock<'a> {
    pub block: BlockView<'a>,
    pub number: usize,
    pub node: NodeView<'a>,
}

impl<'a> NodeInBlock<'a> {
    // A node of a block by its number; one with no rows where there is none.
    pub fn by_number(block: &BlockView<'a>, number: usize) -> NodeInBlock<'a>
        ensures block { result.block ≡ block.now }
        ensures number { result.number ≡ number }
        ensures node { node_of result.node ≡ node_at (block_of block.now) number }
    {
        NodeInBlock {
            block: *block,
            number,
            node: node_view(block, number),
        }
    }
}

// A node, its number, and the block, which rows can hold.
#[derive(Clone, Copy, Debug, PartialEq, Eq)]
pub struct NodeInHeld<'a> {
    pub block: HeldBlock<'a>,
    pub number: usize,
    pub node: NodeView<'a>,
}

impl<'a> NodeInHeld<'a> {
    // The same node in any block.
    pub fn in_view(&self) -> NodeInBlock<'a>
        ensures { result ≡ record { block = self.now.block.view; number = self.now.number; node = self.now.node } }
    {
        NodeInBlock {
            block: self.block.view,
            number: self.number,
            node: self.node,
        }
    }
}

// Whether a node is the main one, which is the last.
pub fn is_main(block: &BlockView<'_>, number: usize) -> bool
    ensures { result ≡ is_main (block_of block.now) number }
{
    number.checked_add(1) == Some(block.nodes.len())
}
