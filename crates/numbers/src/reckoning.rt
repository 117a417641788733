ghost use Rattle.std.specs.Prelude.{◌≡◌};
ghost use Rattle.numbers.specs.Reckonings.{Reckonings};

// Numbers and how they are reckoned with. Each method is total and answers by its arguments alone, and
// asking changes nothing: what it answers is what the meaning says.
pub trait Reckoning {
    type Num: Copy;

    ghost meaning: { Self → Reckonings (Self.Num) };

    // The number that a reading stands for.
    fn take(&self, reading: i32) -> Self::Num
        ensures { result ≡ (meaning self.now).take reading };

    fn minus(&self, a: Self::Num) -> Self::Num
        ensures { result ≡ (meaning self.now).minus a };

    fn plus(&self, a: Self::Num, b: Self::Num) -> Self::Num
        ensures { result ≡ (meaning self.now).plus a b };

    // a less b.
    fn less(&self, a: Self::Num, b: Self::Num) -> Self::Num
        ensures { result ≡ (meaning self.now).less a b };

    fn times(&self, a: Self::Num, b: Self::Num) -> Self::Num
        ensures { result ≡ (meaning self.now).times a b };

    // a by b.
    fn quotient(&self, a: Self::Num, b: Self::Num) -> Self::Num
        ensures { result ≡ (meaning self.now).quotient a b };

    // Whether a is strictly smaller than b. A default for this, `same` and `show` would save the two reckonings here one
    // line each, and ask `Ord` and `Into<i64>` of every `Num`.
    fn below(&self, a: Self::Num, b: Self::Num) -> bool
        ensures { result ≡ (meaning self.now).below a b };

    fn same(&self, a: Self::Num, b: Self::Num) -> bool
        ensures { result ≡ (meaning self.now).same a b };

    // The whole number that stands for a outside.
    fn show(&self, a: Self::Num) -> i64
        ensures { result ≡ (meaning self.now).show a };
}
