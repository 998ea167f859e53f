// The wheel of two, kept as a bit.
ghost use Rattle.std.specs.Prelude.{if◌then◌else◌};
ghost use Rattle.std.proofs.Common.{rules, arith};

use crate::dividing::DividingWheel;
use crate::turning::Wheel;

#[derive(Clone, Copy, Debug, PartialEq, Eq)]
pub struct Two {
    bit: bool,
}

impl Wheel for Two {
    const K: u8 = 2;

    ghost K = { 2 };

    // A set bit stands for 1.
    ghost number = { λ x. (if x.bit then 1 else 0) };

    ghost laws = { Prim.search (rules, arith) };

    fn from_digit(digit: u8) -> Two {
        Two {
            bit: digit % 2 == 1,
        }
    }

    fn digit(self) -> u8 {
        u8::from(self.bit)
    }

    fn turn(self, by: Two) -> Two {
        Two {
            bit: self.bit ^ by.bit,
        }
    }

    fn turn_back(self, by: Two) -> Two {
        self.turn(by)
    }
}

impl DividingWheel for Two {
    fn times(self, by: Two) -> Two {
        Two {
            bit: self.bit & by.bit,
        }
    }

    // 1 times 1 is 1, so each position is its own partner.
    fn partner(self) -> Two {
        self
    }
}
