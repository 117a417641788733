ghost use Rattle.std.specs.Prelude.{◌≡◌};
ghost use Rattle.script.specs.Words.{number_in};

use crate::command::{Call, Command, Numbers, Setting, System, Tables};
use crate::fault::LineFault;
use crate::hex::bytes_of_hex;
use std::alloc::{AllocError, Global};

const MOST_ROWS: u32 = 1_000_000;

// The words of a line, which spaces and tabs part. A `#` starts a comment.
pub fn words_of<'a>(heap: Global, line: &'a str) -> Result<Vec<&'a str>, AllocError> {
    let text = line.split_once('#').map_or(line, |(before, _)| before);
    text.split_ascii_whitespace().collect(heap)
}

// The number that a word of digits writes, where it is at most `most`.
fn number(word: &str, most: u32) -> Result<u32, LineFault>
    ensures { result ≡ number_in word.now most }
{
    match word.parse::<u32>() {
        // `parse` takes a plus sign too
        Ok(n) if n <= most && !word.starts_with('+') => Ok(n),
        _ => Err(LineFault::NotInRange { most }),
    }
}

// The highest rank.
fn top(word: &str) -> Result<u8, LineFault>
    ensures { result ≡ number_in word.now 255 }
{
    Ok(number(word, 255)? as u8)
}

// How many rows a table has.
fn row_count(word: &str) -> Result<u32, LineFault>
    ensures { result ≡ number_in word.now 1000000 }
{
    number(word, MOST_ROWS)
}

// What the words after a call's own say. Functions and no `TryFrom`, which would say no more and name the words' type
// three times.
fn system(words: &[&str]) -> Result<System, LineFault> {
    match words {
        ["compartments"] => Ok(System::Compartments),
        ["ranks", a] => Ok(System::Ranks { top: top(a)? }),
        ["pair", "ranks", a, "compartments"] => {
            Ok(System::RanksAndCompartments { top: top(a)? })
        }
        ["pair", "ranks", a, "ranks", b] => Ok(System::RanksAndRanks {
            first: top(a)?,
            second: top(b)?,
        }),
        _ => Err(LineFault::UnknownSystem),
    }
}

fn numbers(words: &[&str]) -> Result<Numbers, LineFault> {
    match words {
        ["points"] => Ok(Numbers::Points),
        ["hundredths"] => Ok(Numbers::Hundredths),
        _ => Err(LineFault::UnknownNumbers),
    }
}

fn tables(words: &[&str]) -> Result<Tables, LineFault> {
    let [cells, expanded, flows, held, answers, classes, stack] = words else {
        return Err(LineFault::WordCount);
    };
    Ok(Tables {
        cells: row_count(cells)?,
        expanded: row_count(expanded)?,
        flows: row_count(flows)?,
        held: row_count(held)?,
        answers: row_count(answers)?,
        classes: row_count(classes)?,
        stack: row_count(stack)?,
    })
}

// The bytes that the only word writes; `-` is none.
fn bytes(heap: Global, words: &[&str]) -> Result<Vec<u8>, LineFault> {
    match words {
        ["-"] => Ok(Vec::new(heap)),
        [word] => bytes_of_hex(heap, word)?.ok_or(LineFault::NotBytes),
        _ => Err(LineFault::WordCount),
    }
}

fn write_call(words: &[&str]) -> Result<Call, LineFault> {
    match words {
        [] => Ok(Call::Write),
        _ => Err(LineFault::WordCount),
    }
}

fn command(heap: Global, call: &str, rest: &[&str]) -> Result<Command, LineFault> {
    Ok(match call {
        "system" => Command::Set(Setting::System(system(rest)?)),
        "numbers" => Command::Set(Setting::Numbers(numbers(rest)?)),
        "tables" => Command::Set(Setting::Tables(tables(rest)?)),
        "read" => Command::Call(Call::Read(bytes(heap, rest)?)),
        "write" => Command::Call(write_call(rest)?),
        "list" => Command::Call(Call::List(bytes(heap, rest)?)),
        "examine" => Command::Call(Call::Examine(bytes(heap, rest)?)),
        "open" | "beat" | "look" | "restart" | "close" | "clear" => return Err(LineFault::NotYet),
        _ => return Err(LineFault::UnknownCall),
    })
}

// What a line asks for; `None` where it has no word.
pub fn parse(heap: Global, line: &str) -> Result<Option<Command>, LineFault> {
    let words = words_of(heap, line)?;
    let Some((call, rest)) = words.split_first() else {
        return Ok(None);
    };
    command(heap, call, rest).map(Some)
}
