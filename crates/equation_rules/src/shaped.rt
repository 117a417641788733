ghost use Rattle.std.specs.Prelude.{◌≡◌};
ghost use Rattle.layout.specs.Layout.{arguments_in, form_in};
ghost use Rattle.std.specs.List.{list_all};
ghost use Rattle.rules.specs.Shape.{is_exp, form_shaped};
ghost use Rattle.rules.specs.Trees.{tree_of};

use layout::node::{Arguments, Equation, Form};
use layout::parts::expression;
use rules::view::NodeView;
use typing::walk::{is_plain, part_of};

// Whether no argument is a merge or an if.
fn arguments_plain(node: &NodeView<'_>, arguments: &Arguments) -> bool
    ensures { result ≡ list_all (λ e. is_exp (tree_of e)) (arguments_in node.now.cells.now arguments.now) }
{
    arguments
        .iter()
        .all(|span| is_plain(node, expression(node.cells, *span)))
}

// Whether the cells of an equation list trees, and plain ones where a merge or an if may not stand.
pub fn equation_shaped(node: &NodeView<'_>, equation: &Equation) -> bool
    ensures { result ≡ form_shaped (form_in node.now.cells.now equation.now.form) }
{
    match &equation.form {
        Form::Plain { cells, .. } => part_of(node, expression(node.cells, *cells)).is_some(),
        Form::Delay { cells, .. } => is_plain(node, expression(node.cells, *cells)),
        Form::Call { arguments, .. } => arguments_plain(node, arguments),
    }
}
