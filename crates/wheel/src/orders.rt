// The orders of the wheels: their constants, and the numbers that their promises speak by.
ghost use Rattle.wheel.specs.contracts.four.FourWheel.TheImpl.{ghosts as of_four};
ghost use Rattle.wheel.specs.contracts.three.ThreeWheel.TheImpl.{ghosts as of_three};
ghost use Rattle.wheel.specs.contracts.two.TwoWheel.TheImpl.{ghosts as of_two};
ghost use Rattle.std.specs.Prelude.{◌≡◌, [], ◌∷◌};

use crate::four::Four;
use crate::three::Three;
use crate::turning::Wheel;
use crate::two::Two;

// The orders of the wheels of two, three and four.
pub fn orders() -> [u8; 3]
    ensures the_constants_are_two_three_and_four { result ≡ 2 ∷ 3 ∷ 4 ∷ [] }
    ensures the_order_is_two { of_two.K ≡ 2 }
    ensures the_order_is_three { of_three.K ≡ 3 }
    ensures the_order_is_four { of_four.K ≡ 4 }
{
    [Two::K, Three::K, Four::K]
}
