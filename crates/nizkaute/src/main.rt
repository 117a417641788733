// Plays a script from a file or from standard input, and prints a line for each call.
#![tactic(auto)]

ghost use Rattle.std.specs.Prelude.{OnSome, IfOk};
ghost use Rattle.std.specs.Iterator.{IsFinite, IsNearerEnd, count_map};
ghost use Rattle.std.specs.Iterator.Adapters.{peekable_can, peekable_source, peekable_peeked, items_left_with_peeked};

use block::rows::Rows;
use script::answer::answer_to;
use script::command::Command;
use script::outcome::wrong_line;
use script::parse::parse;
use script::settings::{START, Settings};
use std::io::Read;
use std::iter::Peekable;
use std::process::ExitCode;
use std::{env, fs, io};
use syntax::cell::Cell;

// Plays lines over new rows until one changes the settings, and gives the new settings; `None` where the lines end.
// No rows are made where no line is left. Each line is parsed when its turn comes, so one command is held at a time.
fn play_part<'a, L: Iterator<Item = (usize, &'a str)>>(
    rt: &HostRuntime,
    lines: &mut Peekable<L>,
    settings: Settings,
    wrong: &mut bool,
) -> io::Result<Option<Settings>>
    requires can { peekable_can L.can_next lines.old }
    requires finite { IsFinite (L.remaining (peekable_source lines.old)) }
    ensures { IfOk result (λ o. OnSome o (IsNearerEnd (peekable_can L.can_next) (λ s. count_map (items_left_with_peeked (peekable_peeked s)) (L.remaining (peekable_source s))) lines.old lines.new)) }
{
    if lines.peek().is_none() {
        return Ok(None);
    }
    let heap = rt.alloc();
    let mut cells = vec![in heap; Cell::Flow(0); settings.tables.cells as usize]?;
    let mut rows = Rows::new(cells.as_mut_slice());
    // tried: over a `for` the proof that fewer lines are left at the `return` did not close
    while let Some((number, text)) = lines.next() {
        match parse(heap, text) {
            Ok(None) => {}
            Ok(Some(Command::Call(call))) => rt.println(answer_to(heap, &mut rows, &call)?)?,
            Ok(Some(Command::Set(setting))) => return Ok(Some(settings.with(setting))),
            Err(fault) => {
                *wrong = true;
                rt.println(wrong_line(heap, number, fault)?)?;
            }
        }
    }
    Ok(None)
}

// Plays all lines, and says whether each was a call.
fn play(rt: &HostRuntime, script: &str) -> io::Result<bool> {
    let mut lines = (1..=usize::MAX).zip(script.lines()).peekable();
    let mut settings = START;
    let mut wrong = false;
    while let Some(next) = play_part(rt, &mut lines, settings, &mut wrong)? {
        settings = next;
    }
    Ok(!wrong)
}

// The file that the only argument names, or standard input where there is none.
fn script_bytes(rt: &HostRuntime) -> io::Result<Vec<u8>> {
    let mut args = env::args(rt)?.skip(1);
    match (args.next(), args.next()) {
        (None, _) => {
            let mut bytes = Vec::new(rt.alloc());
            rt.stdin().read_to_end(&mut bytes)?;
            Ok(bytes)
        }
        (Some(path), None) => fs::read(rt, path.as_str()),
        (Some(_), Some(_)) => Err(io::Error::new(
            io::ErrorKind::InvalidInput,
            "usage: nizkaute [FILE]",
        )),
    }
}

// Plays the script, or says on standard error why it cannot be read. The status is 1 where some line is no call.
fn run(rt: &HostRuntime) -> io::Result<ExitCode> {
    let script = match script_bytes(rt) {
        Ok(script) => script,
        Err(e) => {
            eprintln!(rt; "nizkaute: {e}")?;
            return Err(e);
        }
    };
    let text = String::from_utf8_lossy(rt.alloc(), script.as_slice())?;
    Ok(if play(rt, &text)? {
        ExitCode::SUCCESS
    } else {
        ExitCode::FAILURE
    })
}

fn main(rt: HostRuntime) -> ExitCode {
    run(&rt).unwrap_or(ExitCode::FAILURE)
}

#[cfg(test)]
mod tests;
