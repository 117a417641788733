// A block as NLUSTRE. A block that is read need not make sense: what has no name is marked by `?`.
ghost use Rattle.std.specs.Iterator.{IsFinite};

use crate::listing::node::NodeListing;
use block::rows::Rows;
use std::alloc::{AllocError, Global};

mod cells;
mod clocks;
mod declarations;
mod equations;
mod expressions;
mod names;
mod node;

// Texts with another between each two.
fn joined<I: Iterator<Item = Result<String, AllocError>>>(
    heap: Global,
    texts: I,
    between: &str,
) -> Result<String, AllocError>
    requires { I.can_next texts × IsFinite (I.remaining texts) }
{
    let texts: Vec<String> = texts.try_collect(heap)?;
    texts.join(heap, between)
}

// The nodes of a block, from a line of its own on each.
pub fn listing(heap: Global, rows: &Rows<'_>) -> Result<String, AllocError> {
    let nodes = rows.nodes().iter().enumerate();
    let texts = nodes.map(|(number, node)| NodeListing { heap, rows, node }.text(number));
    joined(heap, texts, "\n")
}
