use crate::hundredths::Hundredths;
use crate::points::WholePoints;
use crate::reckoning::Reckoning;

#[test]
fn whole_points_wrap(rt: HostRuntime) {
    let points = WholePoints;
    assert_eq!(rt; points.quotient(-7, 2), -3);
    assert_eq!(rt; points.quotient(-2_147_483_648, -1), -2_147_483_648);
    assert_eq!(rt; points.quotient(7, 0), 0);
}

#[test]
fn hundredths_are_held(rt: HostRuntime) {
    let hundredths = Hundredths;
    assert_eq!(rt; hundredths.times(105, 105), 110);
    assert_eq!(rt; hundredths.plus(2_000_000_000, 1), 2_000_000_000);
}
