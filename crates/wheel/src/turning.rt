// A wheel has k positions, k from 2 to 9, and each position stands for one number below k: the integers modulo k.
ghost use Rattle.wheel.specs.Laws.{WheelLaws};
ghost use Rattle.std.specs.Prelude.{◌≡◌, ℕ, ◌+◌, ◌-◌, ◌%◌, true};

// A value is one position of the wheel. Two values may stand for one number.
pub trait Wheel: Copy {
    // How many positions the wheel has.
    const K: u8;

    // The constant, as clauses name it.
    ghost K: { ℕ };

    // The number that a position stands for.
    ghost number: { Self → ℕ };

    // k.
    fn positions() -> u8
        ensures is_the_order { result ≡ K }
    {
        Self::K
    }

    // The position of a digit; a digit of k or more counts by its remainder.
    fn from_digit(digit: u8) -> Self
        ensures stands_for_the_remainder { number result ≡ digit % K };

    // The number that the position stands for.
    fn digit(self) -> u8
        ensures is_the_number { result ≡ number self };

    // The remainder of x + y.
    fn turn(self, by: Self) -> Self
        ensures stands_for_the_sum { number result ≡ (number self + number by) % K };

    // The remainder of x - y.
    fn turn_back(self, by: Self) -> Self
        ensures stands_for_the_difference { number result ≡ (number self + (K - number by)) % K };

    // Whether two positions stand for one number. (`==` on a wheel may tell two values of one number apart.)
    fn same(self, other: Self) -> bool
        ensures yes_exactly_for_one_number { (result ≡ true → number self ≡ number other) × (number self ≡ number other → result ≡ true) }
    {
        self.digit() == other.digit()
    }

    // k is from 2 to 9, and every number is below k.
    ghost laws: { WheelLaws K number };
}
