// The whole text: how long it is, and putting it.
ghost use Rattle.std.specs.Prelude.{◌≡◌, length};
ghost use Rattle.net.specs.Views.{view};
ghost use Rattle.net_writing.specs.Putting.{Puts, Room};
ghost use Rattle.sheet.specs.Views.{names_of};
ghost use Rattle.texts.specs.NetText.{net_text};

use crate::cursors::Cursor;
use crate::names::{names_length, put_names};
use crate::numbers::number_line_length;
use crate::places::{places_length, put_places};
use lines::keys::{NET_END, NET_OPENING, PLACES, STYLES, WHEEL};
use net::nets::Net;
use sheet::sheets::Sheet;
use wheel::turning::Wheel;

// The length of the text of a net and its names. Lengths have functions of their own: to put without a buffer would need a
// second kind of cursor, and would visit every cell.
pub(crate) fn text_length<W: Wheel>(net: &Net<W>, sheet: &Sheet) -> usize
    requires one_name_each { length (names_of sheet.now) ≡ (view W.Wheel net.now).styles }
    ensures counts_the_bytes { result ≡ length (net_text (view W.Wheel net.now) (names_of sheet.now)) }
{
    NET_OPENING.len()
        + number_line_length(WHEEL, usize::from(W::positions()))
        + number_line_length(STYLES, net.styles())
        + names_length(sheet)
        + number_line_length(PLACES, net.places())
        + places_length(net)
        + NET_END.len()
}

// Puts the text of a net and its names.
pub(crate) fn put_text<W: Wheel>(cursor: &mut Cursor<'_>, net: &Net<W>, sheet: &Sheet)
    requires room { Room cursor.old (net_text (view W.Wheel net.now) (names_of sheet.now)) }
    ensures puts_the_text { Puts cursor.old (net_text (view W.Wheel net.now) (names_of sheet.now)) cursor.new }
{
    let wheel = usize::from(W::positions());
    let styles = net.styles();
    let places = net.places();
    cursor.put(NET_OPENING);
    cursor.put_number_line(WHEEL, wheel);
    cursor.put_number_line(STYLES, styles);
    put_names(cursor, sheet);
    cursor.put_number_line(PLACES, places);
    put_places(cursor, net);
    cursor.put(NET_END);
}
