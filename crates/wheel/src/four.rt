// The wheel of four, which turns and does not divide: 2 has no partner.
ghost use Rattle.std.specs.Prelude.{◌<◌};
ghost use Rattle.std.proofs.Common.{rules, arith};

use crate::turning::Wheel;

#[derive(Clone, Copy, Debug, PartialEq, Eq)]
pub struct Four {
    value: u8,
    ghost below_four: { value < 4 },
}

impl Wheel for Four {
    const K: u8 = 4;

    ghost K = { 4 };

    ghost number = { λ x. x.value };

    ghost laws = { Prim.search (rules, arith) };

    fn from_digit(digit: u8) -> Four {
        Four { value: digit % 4 }
    }

    fn digit(self) -> u8 {
        self.value
    }

    fn turn(self, by: Four) -> Four {
        Four {
            value: (self.value + by.value) % 4,
        }
    }

    fn turn_back(self, by: Four) -> Four {
        Four {
            value: (self.value + (4 - by.value)) % 4,
        }
    }
}
