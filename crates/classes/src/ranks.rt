ghost use Rattle.std.specs.Prelude.{◌≡◌};
ghost use Rattle.classes.specs.Systems.{ranked};
ghost use Rattle.std.proofs.Common.{rules};

use crate::system::ClassSystem;

// Ranks in one line, from 0 to the top.
#[derive(Clone, Copy, Debug, PartialEq, Eq)]
pub struct Ranks {
    top: u8,
}

impl Ranks {
    pub fn new(top: u8) -> Ranks
        ensures { result.top ≡ top }
    {
        Ranks { top }
    }
}

impl ClassSystem for Ranks {
    type Class = u8;

    ghost meaning = { λ s. ranked s.top };

    ghost lawful = { Prim.search rules };

    fn bottom(&self) -> u8 {
        0
    }

    fn join(&self, a: u8, b: u8) -> u8 {
        a.max(b)
    }

    fn at_or_below(&self, a: u8, b: u8) -> bool {
        a <= b
    }

    fn named(&self, code: u16) -> Option<u8> {
        // Read before the test: that the top is a byte matters just where the code is none.
        let top = self.top;
        u8::try_from(code).ok().filter(|rank| *rank <= top)
    }
}
