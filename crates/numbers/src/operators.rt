ghost use Rattle.std.specs.Prelude.{◌≡◌};
ghost use Rattle.numbers.specs.Reckonings.{applied, compared};

use crate::reckoning::Reckoning;

// What a binary operator's code makes of two numbers, where it makes a number. A rule of the project has binary
// operators go by their codes, in a match over these.
pub fn apply<R: Reckoning>(r: &R, op: u8, a: R::Num, b: R::Num) -> Option<R::Num>
    ensures { result ≡ applied (R.Reckoning.meaning r.now) op a b }
{
    match op {
        3 => Some(r.plus(a, b)),
        4 => Some(r.less(a, b)),
        5 => Some(r.times(a, b)),
        6 => Some(r.quotient(a, b)),
        _ => None,
    }
}

// What a binary operator's code makes of two numbers, where it makes a truth; by its code too.
pub fn compare<R: Reckoning>(r: &R, op: u8, a: R::Num, b: R::Num) -> Option<bool>
    ensures { result ≡ compared (R.Reckoning.meaning r.now) op a b }
{
    match op {
        7 => Some(r.below(a, b)),
        8 => Some(r.same(a, b)),
        _ => None,
    }
}
