// Reading the lines of places.
ghost use Rattle.net.specs.Views.{cell_of};
ghost use Rattle.net_reading.specs.Opening.{NoCells, NoPlace, place_of};
ghost use Rattle.std.specs.List.{flat_map};
ghost use Rattle.std.specs.Prelude.{◌≡◌, ◌∷◌, ◌++◌, map, length, MatchOption};
ghost use Rattle.texts.specs.Lines.{line_feed};
ghost use Rattle.texts.specs.NetText.{cell_bytes, place_line as line_of_place};

use crate::cells::{cell, digit};
use lines::keys::PLACE;
use lines::literals::literal;
use net::cells::Cell;
use wheel::turning::Wheel;

// Reads over all the cells, and answers the bytes after them. One row of cells serves all places, so that a line asks for no
// memory.
fn read_cells<'a, W: Wheel>(bytes: &'a [u8], cells: &mut [Cell<W>]) -> Option<&'a [u8]>
    ensures reads_every_cell { MatchOption result (NoCells W.Wheel.K (length cells.old) bytes.now) (λ rest. bytes.now ≡ flat_map cell_bytes (map (cell_of W.Wheel) cells.new) ++ rest.now) }
    ensures as_many_cells_as_before { length cells.new ≡ length cells.old }
{
    let mut rest = bytes;
    for slot in cells.iter_mut() {
        let (read, after) = cell(rest)?;
        *slot = read;
        rest = after;
    }
    Some(rest)
}

// Reads a place's line over the cells, and answers the start value and the bytes after the line.
pub(crate) fn place_line<'a, W: Wheel>(
    bytes: &'a [u8],
    cells: &mut [Cell<W>],
) -> Option<(W, &'a [u8])>
    ensures reads_a_places_line { MatchOption result (NoPlace W.Wheel.K (length cells.old) bytes.now) (λ x. bytes.now ≡ line_of_place (place_of W.Wheel x.0 cells.new) ++ (line_feed ∷ x.1.now)) }
    ensures as_many_cells_as_before { length cells.new ≡ length cells.old }
{
    let [first, after @ ..] = literal(bytes, PLACE)? else {
        return None;
    };
    let start = digit(*first)?;
    match read_cells(after, cells)? {
        [b'\n', rest @ ..] => Some((start, rest)),
        _ => None,
    }
}
