// Reading all the places of a net.
ghost use Rattle.std.specs.Prelude.{◌≡◌, ◌<◌, length};
ghost use Rattle.net.specs.Making.{with_place};
ghost use Rattle.net.specs.Views.{view};
ghost use Rattle.net_reading.specs.Owed.{PlacesOwe};
ghost use Rattle.net_reading.specs.Opening.{place_of};

use crate::places::place_line;
use lines::faults::LineFault;
use net::cells::Cell;
use net::nets::Net;
use wheel::turning::Wheel;

// Gives a place that the net has its values.
fn put<W: Wheel>(net: &mut Net<W>, place: usize, start: W, cells: &[Cell<W>])
    requires such_a_place { place < length (view W.Wheel net.old).places }
    requires one_cell_for_each_style { length cells.now ≡ (view W.Wheel net.old).styles }
    ensures replaces_the_place { view W.Wheel net.new ≡ with_place (view W.Wheel net.old) place (place_of W.Wheel start cells.now) }
{
    net.put_place(place, start, cells).unwrap();
}

// Reads the lines of the net's places over them, each through the cells, and answers the bytes after them.
pub(crate) fn read_places<'a, W: Wheel>(
    bytes: &'a [u8],
    net: &mut Net<W>,
    cells: &mut [Cell<W>],
) -> Result<&'a [u8], LineFault>
    requires one_cell_for_each_style { length cells.old ≡ (view W.Wheel net.old).styles }
    ensures reads_every_place_or_tells_where_they_break_off { PlacesOwe W.Wheel.K (view W.Wheel net.old).styles (length (view W.Wheel net.old).places) bytes.now (view W.Wheel net.new) result }
{
    let mut rest = bytes;
    for place in 0..net.places() {
        let (start, after) = place_line(rest, cells).ok_or(LineFault::form(
            (5 + cells.len() + place) as u32,
        ))?;
        put(net, place, start, cells);
        rest = after;
    }
    Ok(rest)
}
