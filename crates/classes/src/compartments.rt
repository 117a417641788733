ghost use Rattle.std.specs.Prelude.{◌≡◌};
ghost use Rattle.classes.specs.Systems.{compartments};
ghost use Rattle.classes.specs.Members.{compartments_lawful};

use crate::system::ClassSystem;

// Sets of at most 16 members: bit i of a set says whether i is a member. Every code is the set of its bits.
#[derive(Clone, Copy, Debug, PartialEq, Eq)]
pub struct Compartments;

impl Compartments {
    pub fn new() -> Compartments
        ensures { ⟦<Compartments as ClassSystem>⟧.meaning result ≡ compartments }
    {
        Compartments
    }
}

impl ClassSystem for Compartments {
    type Class = u16;

    ghost meaning = { λ s. compartments };

    ghost lawful = { λ s. compartments_lawful };

    fn bottom(&self) -> u16 {
        0
    }

    fn join(&self, a: u16, b: u16) -> u16 {
        a | b
    }

    fn at_or_below(&self, a: u16, b: u16) -> bool {
        self.join(a, b) == b
    }

    fn named(&self, code: u16) -> Option<u16> {
        Some(code)
    }
}
