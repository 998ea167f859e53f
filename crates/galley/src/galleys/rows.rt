// One style's cells beside the values that the places show.
ghost use Rattle.galley.specs.Rows.{NoneRefuses, FirstRefuses, Turned};
ghost use Rattle.net.specs.Views.{cell_of};
ghost use Rattle.std.specs.Prelude.{◌≡◌, map, length, MatchOption};

use crate::galleys::refusals::Refusing;
use net::cells::Cell;
use wheel::turning::Wheel;

// The first place that refuses the style. By a rule of this project the search is a loop over the places that ends by `break`.
pub(super) fn first_refusing<W: Wheel>(cells: &[Cell<W>], shown: &[W]) -> Option<Refusing>
    requires a_cell_for_each_place { length cells.now ≡ length shown.now }
    ensures is_the_first { MatchOption result (NoneRefuses (map (cell_of W.Wheel) cells.now) (map W.Wheel.number shown.now) (length cells.now)) (FirstRefuses (map (cell_of W.Wheel) cells.now) (map W.Wheel.number shown.now)) }
{
    'first: {
        for (place, cell) in cells.iter().enumerate() {
            if let Some(wanted) = cell.missed(shown[place]) {
                break 'first Some(Refusing {
                    place,
                    shown: shown[place].digit(),
                    wanted: wanted.digit(),
                });
            }
        }
        None
    }
}

// Turns each place by its turn for the style.
pub(super) fn turn_all<W: Wheel>(cells: &[Cell<W>], shown: &mut [W])
    requires a_cell_for_each_place { length cells.now ≡ length shown.old }
    ensures each_place_turns { Turned W.Wheel.K (map (cell_of W.Wheel) cells.now) (map W.Wheel.number shown.old) (length cells.now) (map W.Wheel.number shown.new) }
    ensures as_many_places_as_before { length shown.new ≡ length shown.old }
{
    for (place, value) in shown.iter_mut().enumerate() {
        *value = value.turn(cells[place].turn);
    }
}
