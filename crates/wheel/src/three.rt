// The wheel of three, kept as -1, 0 and 1: -1 stands for 2.
ghost use Rattle.wheel.specs.Signed.{residue};
ghost use Rattle.std.specs.Prelude.{◌≡◌, pos, negsuc, ◌≤ℤ◌};
ghost use Rattle.std.proofs.Common.{rules, arith};

use crate::dividing::DividingWheel;
use crate::turning::Wheel;

#[derive(Clone, Copy, Debug, PartialEq, Eq)]
pub struct Three {
    value: i8,
    ghost at_least_minus_one: { negsuc 0 ≤ℤ value },
    ghost at_most_one: { value ≤ℤ pos 1 },
}

impl Three {
    // The position for a sum or a difference of two values.
    fn wrapped(value: i8) -> Three
        requires at_least_minus_two { negsuc 1 ≤ℤ value }
        requires at_most_two { value ≤ℤ pos 2 }
        ensures keeps_the_remainder { residue result.value ≡ residue value }
    {
        if value > 1 {
            Three { value: value - 3 }
        } else if value < -1 {
            Three { value: value + 3 }
        } else {
            Three { value }
        }
    }
}

impl Wheel for Three {
    const K: u8 = 3;

    ghost K = { 3 };

    ghost number = { λ x. residue x.value };

    ghost laws = { Prim.search (rules, arith) };

    fn from_digit(digit: u8) -> Three {
        match digit % 3 {
            0 => Three { value: 0 },
            1 => Three { value: 1 },
            _ => Three { value: -1 },
        }
    }

    // By a test and not by `rem_euclid`, which divides: with it Write and the readers of cells took more than twice as long.
    fn digit(self) -> u8 {
        if self.value < 0 { 2 } else { self.value as u8 }
    }

    fn turn(self, by: Three) -> Three {
        Three::wrapped(self.value + by.value)
    }

    fn turn_back(self, by: Three) -> Three {
        Three::wrapped(self.value - by.value)
    }

    // Each number has one value here. The default goes through both digits: with it May and Set took more than twice as long.
    fn same(self, other: Three) -> bool {
        self == other
    }
}

impl DividingWheel for Three {
    fn times(self, by: Three) -> Three {
        Three {
            value: self.value * by.value,
        }
    }

    // The square of -1 is 1, as that of 1 is, so each position is its own partner.
    fn partner(self) -> Three {
        self
    }
}
