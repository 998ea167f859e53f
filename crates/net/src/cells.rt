// Cells: what a place holds for one style.
ghost use Rattle.net.specs.Views.{cell_of};
ghost use Rattle.std.specs.Prelude.{◌≡◌, ◌%◌, true, Some, None, MatchOption, ◌≢◌};
ghost use Rattle.std.specs.Option.{option_map};
ghost use Rattle.theory.specs.Places.{Unwanted};

use wheel::turning::Wheel;

// The wanted value if the style is tested, and the turn.
#[derive(Clone, Copy, Debug, PartialEq, Eq)]
pub struct Cell<W> {
    pub wanted: Option<W>,
    pub turn: W,
}

impl<W: Wheel> Cell<W> {
    // A cell that tests its style.
    pub fn tested(wanted: W, turn: W) -> Cell<W>
        ensures tests_for_the_wanted_value { result.wanted ≡ Some wanted }
        ensures turns_as_told { result.turn ≡ turn }
    {
        Cell {
            wanted: Some(wanted),
            turn,
        }
    }

    // A cell that does not test its style.
    pub fn untested(turn: W) -> Cell<W>
        ensures tests_nothing { result.wanted ≡ None }
        ensures turns_as_told { result.turn ≡ turn }
    {
        Cell { wanted: None, turn }
    }

    // A cell by its digits: the wanted one, if any, and the turn. Digits of k or more count by their remainders.
    pub fn from_digits(wanted: Option<u8>, turn: u8) -> Cell<W>
        ensures wants_the_remainder { (cell_of W.Wheel result).wanted ≡ option_map (λ digit. digit % W.Wheel.K) wanted }
        ensures turns_by_the_remainder { (cell_of W.Wheel result).turn ≡ turn % W.Wheel.K }
    {
        Cell {
            wanted: wanted.map(|digit| W::from_digit(digit)),
            turn: W::from_digit(turn),
        }
    }

    // Whether the place, showing this value, refuses the style.
    pub fn refuses(self, shown: W) -> bool
        ensures yes_exactly_where_unwanted { (result ≡ true → Unwanted (cell_of W.Wheel self).wanted (W.Wheel.number shown)) × (Unwanted (cell_of W.Wheel self).wanted (W.Wheel.number shown) → result ≡ true) }
    {
        self.wanted.is_some_and(|wanted| !wanted.same(shown))
    }

    // The wanted value, where the place shows another and so refuses the style.
    pub fn missed(self, shown: W) -> Option<W>
        ensures missed_exactly_where_unwanted { MatchOption result (Unwanted (cell_of W.Wheel self).wanted (W.Wheel.number shown) → ⊥) (λ wanted. (self.wanted ≡ Some wanted) × (W.Wheel.number shown ≢ W.Wheel.number wanted)) }
    {
        self.wanted.filter(|wanted| !wanted.same(shown))
    }
}
