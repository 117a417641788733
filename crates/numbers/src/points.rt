ghost use Rattle.numbers.specs.Points.{points};

use crate::reckoning::Reckoning;

// Whole points: signed numbers of 32 bits that wrap.
#[derive(Clone, Copy, Debug, PartialEq, Eq)]
pub struct WholePoints;

#[tactic(auto, using(std::proofs::lemmas::Int::wraps, crate::proofs::Quotients::wraps_quotient))]
impl Reckoning for WholePoints {
    type Num = i32;

    ghost meaning = { λ _. points };

    fn take(&self, reading: i32) -> i32 {
        reading
    }

    fn minus(&self, a: i32) -> i32 {
        a.wrapping_neg()
    }

    fn plus(&self, a: i32, b: i32) -> i32 {
        a.wrapping_add(b)
    }

    fn less(&self, a: i32, b: i32) -> i32 {
        a.wrapping_sub(b)
    }

    fn times(&self, a: i32, b: i32) -> i32 {
        a.wrapping_mul(b)
    }

    fn quotient(&self, a: i32, b: i32) -> i32 {
        // `checked_div` would also leave out the smallest number by -1.
        if b == 0 { 0 } else { a.wrapping_div(b) }
    }

    fn below(&self, a: i32, b: i32) -> bool {
        a < b
    }

    fn same(&self, a: i32, b: i32) -> bool {
        a == b
    }

    fn show(&self, a: i32) -> i64 {
        i64::from(a)
    }
}
