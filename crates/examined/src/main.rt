// Answers the calls of a script from standard input, over rows of the size that a script starts with, and prints
// a line that is no call as `nizkaute` does. Settings change nothing.
#![tactic(auto)]

use block::rows::Rows;
use script::answer::answer_to;
use script::command::Command;
use script::outcome::wrong_line;
use script::parse::parse;
use script::settings::START;
use std::io;
use std::io::Read;
use syntax::cell::Cell;

fn main(rt: HostRuntime) -> io::Result<()> {
    let heap = rt.alloc();
    let mut bytes = Vec::new(heap);
    rt.stdin().read_to_end(&mut bytes)?;
    let text = String::from_utf8_lossy(heap, bytes.as_slice())?;
    let mut cells = vec![in heap; Cell::Flow(0); START.tables.cells as usize]?;
    let mut rows = Rows::new(cells.as_mut_slice());
    for (number, line) in text.lines().enumerate() {
        match parse(heap, line) {
            Ok(Some(Command::Call(call))) => rt.println(answer_to(heap, &mut rows, &call)?)?,
            Ok(_) => {}
            Err(fault) => rt.println(wrong_line(heap, number + 1, fault)?)?,
        }
    }
    Ok(())
}
