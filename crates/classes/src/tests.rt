use crate::bounds::{all_at_or_below, join_all};
use crate::compartments::Compartments;
use crate::pair::{Both, Pair};
use crate::ranks::Ranks;
use crate::system::ClassSystem;
use std::test::Fail;

#[test]
fn ranks(rt: HostRuntime) {
    let ranks = Ranks::new(3);
    assert_eq!(rt; [ranks.named(3), ranks.named(4)], [Some(3), None]);
    assert_eq!(rt; join_all(&ranks, &[1, 3, 2]), 3);
    assert_eq!(rt;
        [
            all_at_or_below(&ranks, &[1, 2], 2),
            all_at_or_below(&ranks, &[1, 3], 2),
        ],
        [true, false]
    );
}

#[test]
fn compartments(rt: HostRuntime) {
    let sets = Compartments::new();
    assert_eq!(rt; sets.named(0xffff), Some(0xffff));
    assert_eq!(rt; join_all(&sets, &[0b0011, 0b0110]), 0b0111);
    assert_eq!(rt;
        [
            sets.at_or_below(0b0010, 0b0110),
            sets.at_or_below(0b0011, 0b0110),
        ],
        [true, false]
    );
}

#[test]
fn pair(rt: HostRuntime) -> Result<(), Fail> {
    let pair = Pair::new(Ranks::new(1), Ranks::new(2));
    let class = pair.named(0x0102).ok_or("0x0102")?;
    assert_eq!(rt;
        class,
        Both {
            first: 1,
            second: 2
        }
    );
    assert_eq!(rt; [pair.named(0x0200), pair.named(0x0003)], [None, None]);
    let low = pair.named(0x0002).ok_or("0x0002")?;
    assert_eq!(rt;
        [pair.at_or_below(low, class), pair.at_or_below(class, low)],
        [true, false]
    );
    Ok(())
}

#[test]
fn pair_of_pairs(rt: HostRuntime) -> Result<(), Fail> {
    let outer = Pair::new(Compartments::new(), Pair::new(Ranks::new(0), Ranks::new(5)));
    let a = outer.named(0x0304).ok_or("0x0304")?;
    let b = outer.named(0x0502).ok_or("0x0502")?;
    let joined = join_all(&outer, &[a, b]);
    let second = Both {
        first: 0,
        second: 4,
    };
    assert_eq!(rt;
        joined,
        Both {
            first: 0x07,
            second
        }
    );
    assert_eq!(rt; outer.named(0x0306), None);
    Ok(())
}
