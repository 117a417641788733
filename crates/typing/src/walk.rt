ghost use Rattle.std.specs.Prelude.{◌≡◌};
ghost use Rattle.std.specs.Option.{option_map};
ghost use Rattle.rules.specs.Clocks.{clock_of};
ghost use Rattle.rules.specs.Kinds.{kind_of};
ghost use Rattle.rules.specs.Shape.{is_exp};
ghost use Rattle.rules.specs.Trees.{tree_of};
ghost use Rattle.rules.specs.Views.{node_of};
ghost use Rattle.typing.specs.Parts.{part_of, part_step};
ghost use Rattle.typing.specs.Stack.{Gives};
ghost use Rattle.typing.specs.Waiting.{waiting_in};

use crate::part::Part;
use crate::waiting::Waiting;
use rules::view::NodeView;
use syntax::cell::Cell;
use syntax::header::Kind;

// Takes the parts that a cell works on, the latest first, and leaves what it makes of them.
fn step(node: &NodeView<'_>, cell: Cell, waiting: &mut Waiting) -> Option<()>
    ensures { Gives (part_step (node_of node.now) cell (waiting_in waiting.old)) result (waiting_in waiting.new) }
{
    match cell {
        Cell::Flow(flow) => waiting.push(Part::of_flow(node, flow)),
        Cell::Truth(_) => waiting.push(Part::of_constant(Kind::Truth)),
        Cell::Number(_) => waiting.push(Part::of_constant(Kind::Number)),
        Cell::Unary(op) => {
            let a = waiting.take_plain()?;
            waiting.push(Part::unary(op, a))
        }
        Cell::Binary(code) => {
            let b = waiting.take_plain()?;
            let a = waiting.take_plain()?;
            waiting.push(Part::binary(code, a, b))
        }
        Cell::When(flow, side) => {
            let a = waiting.take_plain()?;
            waiting.push(Part::when(node, flow, side, a))
        }
        Cell::Merge(flow) => {
            let b = waiting.take()?;
            let a = waiting.take()?;
            waiting.push(Part::merge(node, flow, a, b))
        }
        Cell::If => {
            let b = waiting.take()?;
            let a = waiting.take()?;
            let condition = waiting.take_plain()?;
            waiting.push(Part::choice(condition, a, b))
        }
    }
}

// What the cells list, taken one by one: nothing where they list no tree, or more than 8 parts would wait.
#[tactic(auto, using(crate::proofs::Runs::runs))]
pub fn part_of(node: &NodeView<'_>, cells: &[Cell]) -> Option<Part>
    ensures { result ≡ option_map (part_of (node_of node.now)) (tree_of cells.now) }
{
    let mut waiting = Waiting::new();
    for cell in cells {
        step(node, *cell, &mut waiting)?;
    }
    waiting.alone()
}

pub fn kind_of(node: &NodeView<'_>, cells: &[Cell]) -> Option<Kind>
    ensures { result ≡ kind_of (node_of node.now) (tree_of cells.now) }
{
    part_of(node, cells)?.kind
}

pub fn clock_of(node: &NodeView<'_>, cells: &[Cell]) -> Option<usize>
    ensures { result ≡ clock_of (node_of node.now) (tree_of cells.now) }
{
    part_of(node, cells)?.clock
}

// Whether the cells list a tree that is no merge and no if.
pub fn is_plain(node: &NodeView<'_>, cells: &[Cell]) -> bool
    ensures { result ≡ is_exp (tree_of cells.now) }
{
    part_of(node, cells).is_some_and(|part| !part.control)
}
