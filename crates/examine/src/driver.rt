ghost use Rattle.std.specs.Prelude.{◌<◌, length};
ghost use Rattle.examine.specs.Failures.{FirstFailure};
ghost use Rattle.layout.specs.Held.{block_in};
ghost use Rattle.layout.specs.Layout.{equation_in};
ghost use Rattle.rules.specs.Examined.{EquationHolds, Examined, First, Holds, node_places, places};
ghost use Rattle.rules.specs.Names.{node_at};
ghost use Rattle.rules.specs.Views.{node_of, block_of};

use crate::asking::{equation_holds, node_holds};
use block::rows::Rows;
use checks::place::{NodeInBlock, NodeInHeld};
use rules::fault::{Check, ExamineFault, Place};
use rules::view::{BlockView, HeldBlock};

// The checks, in the order in which they are made.
const CHECKS: [Check; 7] = [
    Check::Fit,
    Check::Shape,
    Check::Kinds,
    Check::Clocks,
    Check::Definitions,
    Check::Cycles,
    Check::Size,
];

// The number of the first equation of a node at which a check fails.
fn first_equation(at: &NodeInBlock<'_>, check: Check) -> Option<usize>
    ensures { FirstFailure (λ e. EquationHolds (block_of at.now.block) check at.now.number (node_of at.now.node) (equation_in at.now.node.cells.now e)) at.now.node.equations.now result }
{
    at.node
        .equations
        .iter()
        .position(|equation| !equation_holds(at, check, equation))
}

// Block and check stay two, here and below: a struct of them would be made for two functions.

// The first place in a node at which a check fails.
fn first_in_node(block: &HeldBlock<'_>, check: Check, number: usize) -> Option<Place>
    requires { number < length block.now.view.nodes.now }
    ensures { First (Holds (block_of block.now.view) check) (node_places number (node_at (block_of block.now.view) number)) result }
{
    let at = NodeInBlock::by_number(&block.view, number);
    let held = NodeInHeld {
        block: *block,
        number,
        node: at.node,
    };
    if !node_holds(&held, check) {
        return Some(Place {
            node: number,
            equation: None,
        });
    }
    let equation = first_equation(&at, check)?;
    Some(Place {
        node: number,
        equation: Some(equation),
    })
}

// The first place in a block at which a check fails.
fn first_in_block(block: &HeldBlock<'_>, check: Check) -> Option<Place>
    ensures { First (Holds (block_of block.now.view) check) (places (block_of block.now.view)) result }
{
    // A loop and no `find_map`: tried, and the proof did not close.
    for number in 0..block.view.nodes.len() {
        if let Some(place) = first_in_node(block, check, number) {
            return Some(place);
        }
    }
    None
}

// Makes the checks one after another.
fn examine_block(block: &HeldBlock<'_>) -> Result<(), ExamineFault>
    ensures { Examined (block_of block.now.view) result }
{
    // A loop and no `try_for_each`, whose contract speaks of calls and not of the first place.
    for check in CHECKS {
        if let Some(place) = first_in_block(block, check) {
            return Err(check.fault_at(place));
        }
    }
    Ok(())
}

// Whether the block in these rows may run. Blank rows hold no node at which anything could fail.
pub fn examine(rows: &Rows<'_>) -> Result<(), ExamineFault>
    ensures { Examined (block_in rows.now.table) result }
{
    let view = BlockView {
        nodes: rows.nodes(),
        cells: rows.cells(),
    };
    examine_block(&HeldBlock { view })
}
