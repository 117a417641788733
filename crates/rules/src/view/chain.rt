ghost use Rattle.std.specs.Prelude.{◌≡◌};
ghost use Rattle.std.specs.Iterator.{YieldsFirst, item_count};
ghost use Rattle.rules.specs.Names.{chain};
ghost use Rattle.rules.specs.Views.{chain_left};

use crate::view::looking::clock_at;
use syntax::header::DerivedClock;

// A node has at most so many derived clocks, and so no chain of clocks is longer.
const MOST_CLOCKS: usize = 7;

// The flows that a clock goes by, from the clock itself down to the base.
#[derive(Drop)]
pub struct ClockChain<'a> {
    clocks: &'a [DerivedClock],
    clock: usize,
    most: usize,
}

#[tactic(auto, unfolding(crate::specs::Views::chain_left))]
pub fn clock_chain(clocks: &[DerivedClock], clock: usize) -> ClockChain<'_>
    ensures { chain_left result ≡ chain clocks.now 7 clock }
{
    ClockChain {
        clocks,
        clock,
        most: MOST_CLOCKS,
    }
}

impl Iterator for ClockChain<'_> {
    type Item = u8;

    ghost next_gives = { YieldsFirst chain_left };

    ghost remaining = { item_count chain_left };

    #[tactic(auto, unfolding(crate::specs::Names::chain, crate::specs::Views::chain_left))]
    fn next(&mut self) -> Option<u8> {
        self.most = self.most.checked_sub(1)?;
        if self.clock == 0 {
            return None;
        }
        let derived = clock_at(self.clocks, self.clock);
        self.clock = usize::from(derived.parent);
        Some(derived.flow)
    }
}
