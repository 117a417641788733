ghost use Rattle.std.specs.Prelude.{◌≡◌, ◌<◌, length, Decides};
ghost use Rattle.layout.specs.Layout.{equation_in};
ghost use Rattle.rules.specs.Examined.{NodeHolds, EquationHolds};
ghost use Rattle.rules.specs.Names.{node_at};
ghost use Rattle.rules.specs.Views.{node_of, block_of};

use checks::clocks::{clocks_are_truths, node_clocked};
use checks::definitions::defined_once;
use checks::fit::{equation_fits, node_fits};
use checks::place::{NodeInBlock, NodeInHeld};
use checks::size::main_small;
use equation_rules::clocked::equation_clocked;
use equation_rules::kinded::equation_kinded;
use equation_rules::shaped::equation_shaped;
use layout::node::Equation;
use order::ordering::has_no_cycle;
use rules::fault::Check;

// A check is chosen by a match, here and below: the rules name each check, and say what it asks, in the same way.

// Whether a check holds of a node's flows and derived clocks.
pub fn node_holds(at: &NodeInHeld<'_>, check: Check) -> bool
    requires inside { at.now.number < length at.now.block.view.nodes.now }
    requires node { node_of at.now.node ≡ node_at (block_of at.now.block.view) at.now.number }
    ensures { Decides result (NodeHolds (block_of at.now.block.view) check at.now.number (node_of at.now.node)) }
{
    match check {
        Check::Fit => node_fits(&at.node),
        Check::Shape => true,
        Check::Kinds => clocks_are_truths(&at.node),
        Check::Clocks => node_clocked(&at.in_view()),
        Check::Definitions => defined_once(&at.node),
        Check::Cycles => has_no_cycle(&at.block.view.nodes[at.number], at.block.view.cells),
        Check::Size => main_small(at),
    }
}

// Whether a check holds of an equation.
pub fn equation_holds(at: &NodeInBlock<'_>, check: Check, equation: &Equation) -> bool
    ensures { Decides result (EquationHolds (block_of at.now.block) check at.now.number (node_of at.now.node) (equation_in at.now.node.cells.now equation.now)) }
{
    match check {
        Check::Fit => equation_fits(at, equation),
        Check::Shape => equation_shaped(&at.node, equation),
        Check::Kinds => equation_kinded(&at.block, &at.node, equation),
        Check::Clocks => equation_clocked(&at.node, equation),
        Check::Definitions | Check::Cycles | Check::Size => true,
    }
}
