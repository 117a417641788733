ghost use Rattle.std.specs.Prelude.{◌≡◌};
ghost use Rattle.rules.specs.Every.{has};
ghost use Rattle.rules.specs.Views.{row_defines};

use layout::node::Form;

// Whether a form defines a flow.
pub fn defines(form: &Form, flow: u8) -> bool
    ensures { result ≡ has flow (row_defines form.now) }
{
    match form {
        Form::Plain { flow: defined, .. } | Form::Delay { flow: defined, .. } => flow == *defined,
        Form::Call { results, .. } => results.contains(&flow),
    }
}
