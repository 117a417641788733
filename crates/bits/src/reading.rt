ghost use Rattle.std.specs.Prelude.{◌≡◌, ◌+◌, ◌-◌, ◌*◌, ◌/◌, ◌%◌, ◌^◌, ◌<◌, ◌≤◌, length, if◌then◌else◌, Some, None, nat_le, slice_index};
ghost use Rattle.std.specs.Int.{from_bool};
ghost use Rattle.bits.specs.Bits.{bits_of, field_at};

use crate::place::{Place, hold_field};

// The bit `k` places after bit `at`.
fn bit_after(bytes: &[u8], at: usize, k: u8) -> bool
    requires { at + k < 8 * length bytes.now }
    ensures { from_bool result ≡ slice_index bytes.now ((at + k) / 8) / 2 ^ (7 - (at + k) % 8) % 2 }
{
    let place = Place::after(at, k);
    (bytes[place.byte] >> place.shift) % 2 == 1
}

// The number in the `width` bits from bit `at` on.
fn number_at(bytes: &[u8], at: usize, width: u8) -> u32
    requires narrow { width ≤ 32 }
    requires inside { at + width ≤ 8 * length bytes.now }
    ensures { Some result ≡ field_at width (bits_of bytes.now) at }
{
    // A loop and no `fold`, whose closure would not know how large the number is.
    let mut value: u32 = 0;
    for k in 0..width {
        value = value * 2 + u32::from(bit_after(bytes, at, k));
    }
    value
}

// The number in the `width` bits from bit `at` on; none where the bytes end before, or above 32 bits.
pub fn field(bytes: &[u8], at: usize, width: u8) -> Option<u32>
    ensures { result ≡ (if nat_le width 32 then field_at width (bits_of bytes.now) at else None) }
{
    hold_field(bytes, at, width).then(|| number_at(bytes, at, width))
}
