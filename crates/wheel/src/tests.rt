use crate::dividing::DividingWheel;
use crate::four::Four;
use crate::three::Three;
use crate::turning::Wheel;
use crate::two::Two;
use std::process::Abort;

// One wheel at every digit from 0 to 99 and every pair of digits below k.
fn turns_by_remainders<W: Wheel>(rt: &impl Abort, k: u8) {
    assert_eq!(rt; W::K, k);
    assert_eq!(rt; W::positions(), k);
    for digit in 0..100u8 {
        assert!(rt; W::from_digit(digit).digit() == digit % k.max(1));
    }
    for x in 0..k {
        for y in 0..k {
            check_pair::<W>(rt, k, x, y);
        }
    }
}

fn check_pair<W: Wheel>(rt: &impl Abort, k: u8, x: u8, y: u8) {
    assert!(rt; x < k && y < k && k < 10);
    let a = W::from_digit(x);
    let b = W::from_digit(y);
    assert_eq!(rt; a.turn(b).digit(), (x + y) % k);
    assert_eq!(rt; a.turn_back(b).digit(), (x + k - y) % k);
    assert_eq!(rt; a.same(b), x == y);
}

fn divides_by_remainders<W: DividingWheel>(rt: &impl Abort, k: u8) {
    assert!(rt; 0 < k);
    for x in 0..k {
        let a = W::from_digit(x);
        let partner = a.partner();
        assert_eq!(rt; a.times(partner).digit(), if x == 0 { 0 } else { 1 });
        for y in 0..k {
            assert_eq!(rt; a.times(W::from_digit(y)).digit(), x.wrapping_mul(y) % k);
        }
    }
    assert_eq!(rt; W::from_digit(0).partner().digit(), 0);
}

#[test]
fn wheel_of_two(rt: HostRuntime) {
    turns_by_remainders::<Two>(&rt, 2);
    divides_by_remainders::<Two>(&rt, 2);
}

#[test]
fn wheel_of_three(rt: HostRuntime) {
    turns_by_remainders::<Three>(&rt, 3);
    divides_by_remainders::<Three>(&rt, 3);
}

#[test]
fn wheel_of_four(rt: HostRuntime) {
    turns_by_remainders::<Four>(&rt, 4);
}
