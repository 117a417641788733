use crate::node::Node;
use crate::store::CellStore;
use crate::up_to::UpTo;

pub type Nodes = UpTo<Node, 8>;

// The rows of a block: its nodes, and the cells of their expressions.
#[derive(Drop)]
pub struct Table<'m> {
    pub nodes: Nodes,
    pub store: CellStore<'m>,
}
