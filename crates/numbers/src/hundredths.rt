ghost use Rattle.std.specs.Prelude.{◌≡◌, ◌*ℤ◌, int_div};
ghost use Rattle.numbers.specs.Hundredths.{held, hundredths};

use crate::reckoning::Reckoning;

// The ends of the range.
const LOW: i64 = -2_000_000_000;

const HIGH: i64 = 2_000_000_000;

// Hundredths: whole counts of hundredths from -2,000,000,000 to 2,000,000,000, held at these ends.
#[derive(Clone, Copy, Debug, PartialEq, Eq)]
pub struct Hundredths;

// The number of the range that is nearest.
fn hold(count: i64) -> i32
    ensures { result ≡ held count }
{
    count.clamp(LOW, HIGH) as i32
}

// a times b, divided by `by` toward zero and then held. At 64 bits the product does not overflow.
fn scale(a: i32, b: i32, by: i32) -> i32
    ensures { result ≡ held (int_div (a *ℤ b) by) }
{
    let product = i64::from(a) * i64::from(b);
    product.checked_div(i64::from(by)).map_or(0, hold)
}

impl Reckoning for Hundredths {
    type Num = i32;

    ghost meaning = { λ _. hundredths };

    fn take(&self, reading: i32) -> i32 {
        hold(i64::from(reading))
    }

    fn minus(&self, a: i32) -> i32 {
        hold(-i64::from(a))
    }

    fn plus(&self, a: i32, b: i32) -> i32 {
        hold(i64::from(a) + i64::from(b))
    }

    fn less(&self, a: i32, b: i32) -> i32 {
        hold(i64::from(a) - i64::from(b))
    }

    fn times(&self, a: i32, b: i32) -> i32 {
        scale(a, b, 100)
    }

    fn quotient(&self, a: i32, b: i32) -> i32 {
        scale(100, a, b)
    }

    fn below(&self, a: i32, b: i32) -> bool {
        a < b
    }

    fn same(&self, a: i32, b: i32) -> bool {
        a == b
    }

    fn show(&self, a: i32) -> i64 {
        i64::from(a)
    }
}
