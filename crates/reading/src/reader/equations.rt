ghost use Rattle.std.specs.Prelude.{ℕ};
ghost use Rattle.syntax.specs.Syntax.{EquationSyntax};
ghost use Rattle.syntax.specs.Decoder.{read_plain, read_delay, read_call, read_form, read_equation};
ghost use Rattle.layout.specs.Layout.{form_row, form_cells, equation_row, equation_cells};
ghost use Rattle.reading.specs.Storing.{ReadsInto, form_code};

use crate::reader::BlockReader;
use crate::reader::items::FormKind;
use crate::reader::rows::Row;
use layout::node::{Equation, Form, Span};
use syntax::fault::ReadFault;

impl BlockReader<'_, '_, '_> {
    #[tactic(auto, unfolding(syntax::specs::Decoder::read_plain))]
    fn plain(&mut self) -> Result<Form, ReadFault>
        ensures { ReadsInto form_row form_cells read_plain self.old self.new result }
    {
        let flow = self.flow()?;
        let cells = Span::read(self)?;
        Ok(Form::Plain { flow, cells })
    }

    #[tactic(auto, unfolding(syntax::specs::Decoder::read_delay))]
    fn delay(&mut self) -> Result<Form, ReadFault>
        ensures { ReadsInto form_row form_cells read_delay self.old self.new result }
    {
        let flow = self.flow()?;
        let first = self.constant()?;
        let cells = Span::read(self)?;
        Ok(Form::Delay { flow, first, cells })
    }

    #[tactic(auto, unfolding(syntax::specs::Decoder::read_call, syntax::specs::Decoder::read_results, syntax::specs::Decoder::read_arguments))]
    fn call(&mut self) -> Result<Form, ReadFault>
        ensures { ReadsInto form_row form_cells read_call self.old self.new result }
    {
        let node = self.byte(3)?;
        let results = self.counted_rows()?;
        let arguments = self.counted_rows()?;
        Ok(Form::Call {
            node,
            results,
            arguments,
        })
    }

    fn form(&mut self, kind: FormKind) -> Result<Form, ReadFault>
        ensures { ReadsInto form_row form_cells (read_form (form_code kind)) self.old self.new result }
    {
        match kind {
            FormKind::Plain => self.plain(),
            FormKind::Delay => self.delay(),
            FormKind::Call => self.call(),
        }
    }
}

impl Row for Equation {
    ghost Item = { EquationSyntax };

    ghost decoder = { read_equation };

    ghost row_of = { equation_row };

    ghost cells = { equation_cells };

    #[tactic(auto, unfolding(syntax::specs::Decoder::read_equation))]
    fn read(reader: &mut BlockReader<'_, '_, '_>) -> Result<Equation, ReadFault> {
        let kind = reader.form_kind()?;
        let clock = reader.byte(3)?;
        let form = reader.form(kind)?;
        Ok(Equation { clock, form })
    }
}
