ghost use Rattle.std.specs.Prelude.{◌≡◌, IfOk, string_bytes};
ghost use Rattle.script.specs.Outcomes.{TellsRefusal, TellsOutcome, written_text, write_text, wrong_text};

use crate::fault::LineFault;
use crate::hex::hex_of_bytes;
use layout::parts::front;
use std::alloc::{AllocError, Global};
use syntax::fault::{Fault, WriteFault};

// What a call that was refused prints.
pub fn refusal<E: Into<Fault>>(heap: Global, call: &str, refused: E) -> Result<String, AllocError>
    ensures { IfOk result (λ s. TellsRefusal E.converts call.now refused (string_bytes s)) }
{
    let fault: Fault = refused.into();
    format!(in heap; "{call} refused {fault}")
}

// What a call prints that tells no more than that it is done.
pub fn outcome<E: Into<Fault>>(
    heap: Global,
    call: &str,
    answer: Result<(), E>,
) -> Result<String, AllocError>
    ensures { IfOk result (λ s. TellsOutcome E.converts call.now answer (string_bytes s)) }
{
    match answer {
        Ok(()) => format!(in heap; "{call} done"),
        Err(e) => refusal(heap, call, e),
    }
}

// What `write` prints of the bytes that it gave.
fn written(heap: Global, bytes: &[u8]) -> Result<String, AllocError>
    ensures { IfOk result (λ s. string_bytes s ≡ written_text bytes.now) }
{
    if bytes.is_empty() {
        return String::from_str(heap, "write 0 -");
    }
    let count = bytes.len();
    let hex = hex_of_bytes(heap, bytes)?;
    format!(in heap; "write {count} {hex}")
}

// `answer` says how many bytes of `out` were written.
pub fn write_outcome(
    heap: Global,
    answer: Result<usize, WriteFault>,
    out: &[u8],
) -> Result<String, AllocError>
    ensures { IfOk result (λ s. string_bytes s ≡ write_text answer out.now) }
{
    match answer {
        Ok(n) => written(heap, front(out, n)),
        Err(e) => refusal(heap, "write", e),
    }
}

// What is printed of a line that is no call.
pub fn wrong_line(heap: Global, number: usize, fault: LineFault) -> Result<String, AllocError>
    ensures { IfOk result (λ s. string_bytes s ≡ wrong_text number fault) }
{
    format!(in heap; "line {number}: {fault}")
}
