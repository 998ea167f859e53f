// The lines of the places.
ghost use Rattle.std.specs.Prelude.{◌≡◌, ◌<◌, length};
ghost use Rattle.net.specs.Views.{view, cell_of};
ghost use Rattle.net_writing.specs.Blocks.{place_lines};
ghost use Rattle.net_writing.specs.Putting.{Puts, Room};
ghost use Rattle.std.specs.List.{flat_map};
ghost use Rattle.texts.specs.Lines.{ended};
ghost use Rattle.texts.specs.NetText.{cell_bytes, digit as digit_of, place_line};
ghost use Rattle.theory.specs.Nets.{place as place_number};

use crate::cursors::Cursor;
use lines::keys::PLACE;
use net::cells::Cell;
use net::nets::Net;
use wheel::turning::Wheel;

// The digit of a value.
fn digit_byte<W: Wheel>(value: W) -> u8
    ensures is_the_digit { result ≡ digit_of (W.Wheel.number value) }
{
    b'0' + value.digit()
}

// The length of the lines of all places: in each the key, the start value, three bytes for each cell and a line feed.
pub(crate) fn places_length<W: Wheel>(net: &Net<W>) -> usize
    ensures counts_the_bytes { result ≡ length (place_lines (view W.Wheel net.now).places) }
{
    net.places() * (PLACE.len() + 1 + 3 * net.styles() + 1)
}

// Puts a cell.
fn put_cell<W: Wheel>(cursor: &mut Cursor<'_>, cell: Cell<W>)
    requires room { Room cursor.old (cell_bytes (cell_of W.Wheel cell)) }
    ensures puts_the_cell { Puts cursor.old (cell_bytes (cell_of W.Wheel cell)) cursor.new }
{
    let wanted = cell.wanted.map_or(b'.', digit_byte);
    cursor.put(&[b' ', wanted, digit_byte(cell.turn)]);
}

// Puts the cells of a place. (A place is told by its net and its number: cells lie by style, so no place can be lent.)
fn put_cells<W: Wheel>(cursor: &mut Cursor<'_>, net: &Net<W>, place: usize)
    requires there_is_such_a_place { place < length (view W.Wheel net.now).places }
    requires room { Room cursor.old (flat_map cell_bytes (place_number (view W.Wheel net.now) place).cells) }
    ensures puts_the_cells { Puts cursor.old (flat_map cell_bytes (place_number (view W.Wheel net.now) place).cells) cursor.new }
{
    for style in 0..net.styles() {
        put_cell(cursor, net.cell(place, style).unwrap());
    }
}

// Puts the line of a place.
fn put_place<W: Wheel>(cursor: &mut Cursor<'_>, net: &Net<W>, place: usize)
    requires there_is_such_a_place { place < length (view W.Wheel net.now).places }
    requires room { Room cursor.old (ended (place_line (place_number (view W.Wheel net.now) place))) }
    ensures puts_the_line { Puts cursor.old (ended (place_line (place_number (view W.Wheel net.now) place))) cursor.new }
{
    cursor.put(PLACE);
    cursor.put(&[digit_byte(net.start(place).unwrap())]);
    put_cells(cursor, net, place);
    cursor.put(b"\n");
}

// Puts the lines of all places.
pub(crate) fn put_places<W: Wheel>(cursor: &mut Cursor<'_>, net: &Net<W>)
    requires room { Room cursor.old (place_lines (view W.Wheel net.now).places) }
    ensures puts_the_lines { Puts cursor.old (place_lines (view W.Wheel net.now).places) cursor.new }
{
    for place in 0..net.places() {
        put_place(cursor, net, place);
    }
}
