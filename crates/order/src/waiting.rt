ghost use Rattle.std.specs.Prelude.{◌≡◌};
ghost use Rattle.std.specs.List.{flat_map};
ghost use Rattle.layout.specs.Layout.{arguments_in, expression_in, form_in, equation_in};
ghost use Rattle.rules.specs.Names.{cell_flows, chain};
ghost use Rattle.rules.specs.Definitions.{cells_flows, form_needs};
ghost use Rattle.rules.specs.Views.{node_of};
ghost use Rattle.order.specs.Waiting.{waits_on, defines_one};

use crate::naming::defines;
use layout::node::{Arguments, Equation, Form, Span};
use layout::parts::expression;
use rules::view::NodeView;
use rules::view::chain::clock_chain;
use rules::view::looking::cell_flow;
use syntax::cell::Cell;
use syntax::header::DerivedClock;

// Whether a cell names a flow that the form defines.
fn cell_waits(cell: Cell, on: &Form) -> bool
    ensures { result ≡ defines_one on.now (cell_flows cell) }
{
    cell_flow(cell).is_some_and(|flow| defines(on, flow))
}

// The cells and the form that is waited on stay two parameters: a struct of them would hold two references and be made
// at each call.

// Whether an expression names a flow that the form defines.
fn expression_waits(cells: &[Cell], span: Span, on: &Form) -> bool
    ensures { result ≡ defines_one on.now (cells_flows (expression_in cells.now span)) }
{
    expression(cells, span)
        .iter()
        .any(|cell| cell_waits(*cell, on))
}

// Whether an argument of a call names one.
fn arguments_wait(cells: &[Cell], arguments: &Arguments, on: &Form) -> bool
    ensures { result ≡ defines_one on.now (flat_map cells_flows (arguments_in cells.now arguments.now)) }
{
    arguments
        .iter()
        .any(|span| expression_waits(cells, *span, on))
}

// Whether a clock goes by a flow that the form defines. The clocks that it is derived from count too.
fn clock_waits(clocks: &[DerivedClock], clock: u8, on: &Form) -> bool
    ensures { result ≡ defines_one on.now (chain clocks.now 7 clock) }
{
    clock_chain(clocks, usize::from(clock)).any(|flow| defines(on, flow))
}

// Whether a form needs, at the same beat, a flow that the other defines.
fn form_waits(cells: &[Cell], form: &Form, on: &Form) -> bool
    ensures { result ≡ defines_one on.now (form_needs (form_in cells.now form.now)) }
{
    match form {
        Form::Plain { cells: span, .. } => expression_waits(cells, *span, on),
        Form::Delay { .. } => false,
        Form::Call { arguments, .. } => arguments_wait(cells, arguments, on),
    }
}

// Whether an equation needs a flow that the other defines.
#[tactic(auto, using(crate::proofs::Waitings::waits_parts))]
pub fn equation_waits(view: &NodeView<'_>, equation: &Equation, on: &Equation) -> bool
    ensures { result ≡ waits_on (node_of view.now) (equation_in view.now.cells.now equation.now) (equation_in view.now.cells.now on.now) }
{
    clock_waits(view.clocks, equation.clock, &on.form)
        || form_waits(view.cells, &equation.form, &on.form)
}
