ghost use Rattle.std.specs.Prelude.{◌≡◌};
ghost use Rattle.classes.specs.Systems.{paired};
ghost use Rattle.std.proofs.Common.{rules};

use crate::system::ClassSystem;

// A class of each of two systems.
#[derive(Clone, Copy, Debug, PartialEq, Eq)]
pub struct Both<X, Y> {
    pub first: X,
    pub second: Y,
}

// Two systems as one. The high byte of a code names a class of the first, the low byte one of the second.
#[derive(Debug, Drop, PartialEq, Eq)]
pub struct Pair<A, B> {
    first: A,
    second: B,
}

impl<A, B> Pair<A, B> {
    pub fn new(first: A, second: B) -> Pair<A, B>
        ensures first { result.first ≡ first }
        ensures second { result.second ≡ second }
    {
        Pair { first, second }
    }
}

impl<A: ClassSystem, B: ClassSystem> ClassSystem for Pair<A, B> {
    type Class = Both<A::Class, B::Class>;

    ghost meaning = { λ s. paired (A.ClassSystem.meaning s.first) (B.ClassSystem.meaning s.second) };

    ghost lawful = { Prim.search rules };

    fn bottom(&self) -> Both<A::Class, B::Class> {
        Both {
            first: self.first.bottom(),
            second: self.second.bottom(),
        }
    }

    fn join(
        &self,
        a: Both<A::Class, B::Class>,
        b: Both<A::Class, B::Class>,
    ) -> Both<A::Class, B::Class> {
        Both {
            first: self.first.join(a.first, b.first),
            second: self.second.join(a.second, b.second),
        }
    }

    fn at_or_below(&self, a: Both<A::Class, B::Class>, b: Both<A::Class, B::Class>) -> bool {
        self.first.at_or_below(a.first, b.first) && self.second.at_or_below(a.second, b.second)
    }

    fn named(&self, code: u16) -> Option<Both<A::Class, B::Class>> {
        let [high, low] = code.to_be_bytes();
        Some(Both {
            first: self.first.named(u16::from(high))?,
            second: self.second.named(u16::from(low))?,
        })
    }
}
