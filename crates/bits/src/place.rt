ghost use Rattle.std.specs.Prelude.{◌≡◌, ◌+◌, ◌-◌, ◌*◌, ◌/◌, ◌%◌, ◌&&◌, length, nat_le};

// Where a bit stands: in which byte, and by how many bits that byte is shifted to have it last.
#[derive(Clone, Copy)]
pub struct Place {
    pub byte: usize,
    pub shift: u8,
}

impl Place {
    // The place of the bit `k` places after bit `at`.
    pub fn after(at: usize, k: u8) -> Place
        ensures byte { result.byte ≡ (at + k) / 8 }
        ensures shift { result.shift ≡ 7 - (at + k) % 8 }
    {
        let bit = at % 8 + usize::from(k);
        Place {
            byte: at / 8 + bit / 8,
            shift: 7 - (bit % 8) as u8,
        }
    }
}

// Whether the bytes hold `width` bits from bit `at` on, and these are at most 32.
pub fn hold_field(bytes: &[u8], at: usize, width: u8) -> bool
    ensures { result ≡ (nat_le width 32 && nat_le (at + width) (8 * length bytes.now)) }
{
    let end = at as u128 + u128::from(width);
    width <= 32 && end <= bytes.len() as u128 * 8
}
