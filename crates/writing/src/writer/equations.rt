ghost use Rattle.syntax.specs.Encoder.{expression_fields, results_fields, arguments_fields, form_fields, equation_fields};
ghost use Rattle.layout.specs.Layout.{expression_in, results_in, arguments_in, form_in, equation_in};

use crate::writer::{BitWriter, Put};
use layout::node::{Arguments, Equation, Form, Results, Span};
use layout::parts::expression;

// The expression whose cells lie there.
impl Put for Span {
    ghost fields = { λ cells span. expression_fields (expression_in cells span) };

    fn put(&self, writer: &mut BitWriter<'_>) {
        let cells = expression(writer.cells, *self);
        writer.put_list(5, cells);
    }
}

// The results of a call.
impl Put for Results {
    ghost fields = { λ _ results. results_fields (results_in results) };

    fn put(&self, writer: &mut BitWriter<'_>) {
        writer.put_list(3, self);
    }
}

// The arguments of a call.
impl Put for Arguments {
    ghost fields = { λ cells arguments. arguments_fields (arguments_in cells arguments) };

    #[tactic(auto, using(crate::proofs::Puts::mapped))]
    fn put(&self, writer: &mut BitWriter<'_>) {
        writer.put_list(3, self);
    }
}

// What follows form and clock.
impl Put for Form {
    ghost fields = { λ cells form. form_fields (form_in cells form) };

    #[tactic(auto, using(crate::proofs::Puts::size_append, crate::proofs::Puts::put_append))]
    fn put(&self, writer: &mut BitWriter<'_>) {
        match self {
            Form::Plain { flow, cells } => {
                flow.put(writer);
                cells.put(writer);
            }
            Form::Delay { flow, first, cells } => {
                flow.put(writer);
                first.put(writer);
                cells.put(writer);
            }
            Form::Call {
                node,
                results,
                arguments,
            } => {
                writer.put(3, u32::from(*node));
                results.put(writer);
                arguments.put(writer);
            }
        }
    }
}

impl Put for Equation {
    ghost fields = { λ cells equation. equation_fields (equation_in cells equation) };

    fn put(&self, writer: &mut BitWriter<'_>) {
        writer.put(2, u32::from(&self.form));
        writer.put(3, u32::from(self.clock));
        self.form.put(writer);
    }
}
