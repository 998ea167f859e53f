// Write: the text of a net and a sheet, into a buffer of the caller's.
ghost use Rattle.net.specs.Views.{view};
ghost use Rattle.net_writing.specs.Refusals.{Answers, write_outcome};
ghost use Rattle.net_writing.specs.Writing.{WriteOwes};
ghost use Rattle.sheet.specs.Views.{names_of};
ghost use Rattle.std.specs.Prelude.{◌≡◌, true, length, is_err};

use crate::cursors::Cursor;
use crate::refusals::WriteRefusal;
use crate::text::{put_text, text_length};
use net::nets::Net;
use sheet::sheets::Sheet;
use wheel::turning::Wheel;

// Writes the text into the front of the buffer, and answers its length.
// A net and its names are two parameters and not one value: the caller holds the two, and Write has to tell where their
// counts differ.
pub fn write<W: Wheel>(
    net: &Net<W>,
    sheet: &Sheet,
    buffer: &mut [u8],
) -> Result<usize, WriteRefusal>
    ensures writes_the_text_or_refuses { WriteOwes (view W.Wheel net.now) (names_of sheet.now) buffer.old buffer.new result }
    ensures answers_by_number_and_values { Answers (view W.Wheel net.now) (names_of sheet.now) (length buffer.old) (write_outcome result) }
    ensures refused_calls_change_nothing { is_err result ≡ true → buffer.new ≡ buffer.old }
{
    let names = sheet.count();
    let styles = net.styles();
    if names != styles {
        return Err(WriteRefusal::StyleCounts {
            sheet: names,
            net: styles,
        });
    }
    let needed = text_length(net, sheet);
    if buffer.len() < needed {
        return Err(WriteRefusal::BufferTooShort(needed));
    }
    put_text(&mut Cursor::new(buffer), net, sheet);
    Ok(needed)
}
