ghost use Rattle.std.specs.Prelude.{◌≡◌, ◌+◌, ◌≤◌, ◌&&◌, map, length, nat_le, slice_index_or};
ghost use Rattle.checks.specs.Sizes.{call_size, capped_size, cells_size};
ghost use Rattle.checks.specs.Sums.{capped};
ghost use Rattle.layout.specs.Layout.{arguments_in, expression_in, form_in};
ghost use Rattle.rules.specs.Size.{cells_in, equations_size, form_size, main_small, no_size, plus, sizes, small};
ghost use Rattle.rules.specs.Views.{block_of, node_of};

use crate::place::{NodeInHeld, is_main};
use layout::node::{Arguments, Form, Span};
use layout::parts::expression;
use layout::up_to::{Blank, UpTo};
use rules::view::looking::{node_view, view_of};
use rules::view::{BlockView, HeldBlock, NodeView};
use std::marker::Model;
use syntax::cell::Cell;

// What the calls in a node add to its flows, and its cells with those of its calls. Where a number would be too
// large, it is the largest there is.
#[derive(Clone, Copy, Default)]
struct Size {
    flows: usize,
    cells: usize,
}

impl Model for Size {
    ghost use Rattle.rules.specs.Size.{Size as exact_size};

    ghost Value = { exact_size };

    ghost view = { λ s. record { flows = s.flows; cells = s.cells } };

    ghost inverse = { λ s. record { flows = s.flows; cells = s.cells } };
}

impl Blank for Size {
    ghost blank = { no_size };

    fn blank() -> Size {
        Size { flows: 0, cells: 0 }
    }
}

// An expansion may have at most so many flows and cells.
const MOST_FLOWS: usize = 512;

const MOST_CELLS: usize = 4096;

impl Size {
    // A method and no `+`, which would not show that the sum stops at the largest number.
    fn plus(self, other: Size) -> Size
        ensures { result ≡ capped_size (plus self other) }
    {
        Size {
            flows: self.flows.saturating_add(other.flows),
            cells: self.cells.saturating_add(other.cells),
        }
    }

    // Whether a node with so many flows of its own is not too large.
    fn is_small(self, flows: usize) -> bool
        ensures { result ≡ (nat_le (flows + self.flows) 512 && nat_le self.cells 4096) }
    {
        flows.saturating_add(self.flows) <= MOST_FLOWS && self.cells <= MOST_CELLS
    }
}

// A size by its node's number; none where there is no such node.
fn size_at(sizes: &[Size], number: usize) -> Size
    ensures { result ≡ slice_index_or sizes.now number no_size }
{
    sizes.get(number).copied().unwrap_or_default()
}

fn argument_cells(cells: &[Cell], arguments: &Arguments) -> usize
    ensures { result ≡ capped (cells_in (arguments_in cells.now arguments.now)) }
{
    // A fold and no `sum`: tried, and the proof did not close.
    arguments
        .iter()
        .map(|span| expression(cells, *span).len())
        .fold(0, usize::saturating_add)
}

fn expression_size(cells: &[Cell], span: Span) -> Size
    ensures { result ≡ capped_size (cells_size (expression_in cells.now span)) }
{
    Size {
        flows: 0,
        cells: expression(cells, span).len(),
    }
}

// The flows of its own that a callee adds: its outputs are flows of the caller.
fn flows_added(called: &NodeView<'_>) -> usize
    ensures { result ≡ (node_of called.now).inputs + (node_of called.now).locals }
{
    usize::from(called.inputs) + usize::from(called.locals)
}

// A block and the sizes of its first nodes, from which the next one's is worked out.
#[derive(Clone, Copy)]
struct Sizing<'a> {
    block: BlockView<'a>,
    earlier: &'a [Size],
}

impl Sizing<'_> {
    // What a call adds: its callee's inputs and locals, the arguments, and what the callee's own calls add.
    fn call_size(&self, cells: &[Cell], callee: u8, arguments: &Arguments) -> Size
        ensures { result ≡ capped_size (call_size (block_of self.now.block) self.now.earlier.now callee (arguments_in cells.now arguments.now)) }
    {
        let number = usize::from(callee);
        let own = Size {
            flows: flows_added(&node_view(&self.block, number)),
            cells: argument_cells(cells, arguments),
        };
        own.plus(size_at(self.earlier, number))
    }

    // What an equation adds.
    fn form_size(&self, cells: &[Cell], form: &Form) -> Size
        ensures { result ≡ capped_size (form_size (block_of self.now.block) self.now.earlier.now (form_in cells.now form.now)) }
    {
        match form {
            Form::Plain { cells: span, .. } | Form::Delay { cells: span, .. } => {
                expression_size(cells, *span)
            }
            Form::Call {
                node,
                arguments,
                ..
            } => self.call_size(cells, *node, arguments),
        }
    }

    // What a node's equations add.
    fn node_size(&self, node: &NodeView<'_>) -> Size
        ensures { result ≡ capped_size (equations_size (block_of self.now.block) self.now.earlier.now (node_of node.now).equations) }
    {
        // A loop and no `fold`: tried, and the proof did not close.
        let mut size = Size::default();
        for equation in node.equations {
            size = size.plus(self.form_size(node.cells, &equation.form));
        }
        size
    }
}

// The sizes of the nodes, each from those before it.
fn sizes_of(block: &HeldBlock<'_>) -> UpTo<Size, 8>
    ensures { result.items ≡ map capped_size (sizes (block_of block.now.view)) }
{
    let block = block.view;
    let mut sizes = UpTo::new();
    for node in block.nodes {
        let sizing = Sizing {
            block,
            earlier: &sizes,
        };
        let size = sizing.node_size(&view_of(node, block.cells));
        sizes.push(size);
    }
    sizes
}

fn small(at: &NodeInHeld<'_>) -> bool
    ensures { result ≡ small (block_of at.now.block.view) at.now.number (node_of at.now.node) }
{
    size_at(&sizes_of(&at.block), at.number).is_small(at.node.flows.len())
}

// Whether a node, where it is the main one, has an expansion that is not too large.
pub fn main_small(at: &NodeInHeld<'_>) -> bool
    ensures { result ≡ main_small (block_of at.now.block.view) at.now.number (node_of at.now.node) }
{
    !is_main(&at.block.view, at.number) || small(at)
}
