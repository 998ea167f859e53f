// Wheels that can divide.
ghost use Rattle.std.specs.Prelude.{◌≡◌, ◌*◌, ◌%◌, ◌≢◌};

use crate::turning::Wheel;

pub trait DividingWheel: Wheel {
    // The remainder of x times y.
    fn times(self, by: Self) -> Self
        ensures stands_for_the_product { Self.Wheel.number result ≡ (Self.Wheel.number self * Self.Wheel.number by) % Self.Wheel.K };

    // The partner of 0 is 0. The product of any other position and its partner leaves remainder 1.
    // Each wheel finds it itself: on those of two and three each position is its own partner, and on no other.
    fn partner(self) -> Self
        ensures of_zero_is_zero { Self.Wheel.number self ≡ 0 → Self.Wheel.number result ≡ 0 }
        ensures of_others_inverts { (Self.Wheel.number self ≢ 0) → (Self.Wheel.number self * Self.Wheel.number result) % Self.Wheel.K ≡ 1 };
}
