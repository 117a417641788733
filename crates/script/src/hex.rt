ghost use Rattle.std.specs.Prelude.{◌≡◌, ◌<◌, IfOk, vec_items, string_bytes};
ghost use Rattle.std.specs.Option.{option_map};
ghost use Rattle.script.specs.Hex.{digit_value, byte_of_digits, digit_of, hex_of, unhex, RoundTrip};

use std::alloc::{AllocError, Global};

// The value of a hexadecimal digit, upper or lower case.
pub fn digit_value(digit: u8) -> Option<u8>
    ensures { result ≡ digit_value digit }
{
    char::from(digit).to_digit(16).map(|value| value as u8)
}

// The byte that two digits write.
pub fn byte_of_digits(high: u8, low: u8) -> Option<u8>
    ensures { result ≡ byte_of_digits high low }
{
    Some(digit_value(high)? * 16 + digit_value(low)?)
}

// The bytes that a text writes, two digits each; `None` where it is no such text. The kit's `hex` is not used,
// since this module, which is public, has its name: who uses that crate may have no module called so.
pub fn bytes_of_hex(heap: Global, text: &str) -> Result<Option<Vec<u8>>, AllocError>
    ensures { IfOk result (λ o. option_map vec_items o ≡ unhex text.now) }
{
    let mut bytes = Vec::new(heap);
    let mut digits = text.as_bytes();
    while let [high, low, rest @ ..] = digits {
        let Some(byte) = byte_of_digits(*high, *low) else {
            return Ok(None);
        };
        bytes.push(byte)?;
        digits = rest;
    }
    Ok(digits.is_empty().then_some(bytes))
}

// The upper case digit of a value.
fn digit_of(value: u8) -> char
    requires { value < 16 }
    ensures { result ≡ digit_of value }
{
    let digit = if value < 10 {
        b'0' + value
    } else {
        b'A' + (value - 10)
    };
    char::from(digit)
}

// Two upper case digits for each byte. Pushed and not written by `{:02X}`, which takes half as long again.
#[tactic(auto, unfolding(crate::specs::Hex::hex_of))]
pub fn hex_of_bytes(heap: Global, bytes: &[u8]) -> Result<String, AllocError>
    ensures { IfOk result (λ s. string_bytes s ≡ hex_of bytes.now) }
{
    let mut text = String::new(heap);
    for byte in bytes {
        text.push(digit_of(byte / 16))?;
        text.push(digit_of(byte % 16))?;
    }
    Ok(text)
}

// A theorem: what is written of bytes reads back as those bytes.
pub fn written_reads_back()
    ensures { RoundTrip }
{}
