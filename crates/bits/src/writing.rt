ghost use Rattle.std.specs.Prelude.{◌≡◌, ◌+◌, ◌*◌, ◌<◌, ◌&&◌, length, if◌then◌else◌, nat_le, is_ok};
ghost use Rattle.std.specs.Int.{from_bool};
ghost use Rattle.bits.specs.Bits.{digits};
ghost use Rattle.bits.specs.Overwriting.{with_bit, set_bit, set_bits, BitsOverwritten};

use crate::place::{Place, hold_field};

// The bytes end before the field does, or the field is wider than 32 bits.
#[derive(Clone, Copy, Debug, PartialEq, Eq)]
pub struct OutOfRange;

// The byte `x` with its bit of worth `2^s` replaced by `b`. By division, as `with_bit` is.
fn byte_with(x: u8, s: u8, b: bool) -> u8
    requires { s < 8 }
    ensures { result ≡ with_bit x s (from_bool b) }
{
    let m: u8 = 1 << s;
    ((x >> s) / 2 * 2 + u8::from(b)) * m + x % m
}

// Replaces the bit `k` places after bit `at` by `b`.
fn put_after(out: &mut [u8], at: usize, k: u8, b: bool)
    requires { at + k < 8 * length out.old }
    ensures { out.new ≡ set_bit out.old (at + k) (from_bool b) }
{
    let place = Place::after(at, k);
    out[place.byte] = byte_with(out[place.byte], place.shift, b);
}

// Writes the last `width` bits of `value` over those from bit `at` on, and no other bit.
pub fn put(out: &mut [u8], at: usize, width: u8, value: u32) -> Result<(), OutOfRange>
    ensures fits { is_ok result ≡ (nat_le width 32 && nat_le (at + width) (8 * length out.old)) }
    ensures out { out.new ≡ (if is_ok result then set_bits out.old at (digits width value) else out.old) }
{
    if !hold_field(out, at, width) {
        return Err(OutOfRange);
    }
    for k in 0..width {
        put_after(out, at, k, (value >> (width - 1 - k)) % 2 == 1);
    }
    Ok(())
}

// A theorem: to replace bits in bytes is to overwrite a part of their list of bits.
pub fn bits_are_overwritten()
    ensures { BitsOverwritten }
{}
