// Reading the first three lines of a net text, and its last.
ghost use Rattle.std.specs.Prelude.{◌≡◌, ◌+◌, ◌^◌, ◌<◌};
ghost use Rattle.net_reading.specs.Reading.{HeadOwes, EndOwes};
ghost use Rattle.texts.specs.Forms.{WheelGood};

use lines::faults::{LineFault, TextFault};
use lines::keys::{NET_END, NET_OPENING, STYLES, WHEEL};
use lines::literals::literal;
use lines::numbers::keyed_number;
use texts::limits::TEXT_LIMIT;
use theory::limits::STYLE_LIMIT;

// The number of styles and the bytes after its line, in a text on the wheel of that order.
pub(crate) fn read_head<'a>(text: &'a [u8], wheel: u8) -> Result<(usize, &'a [u8]), TextFault>
    requires a_wheel_of_a_text { WheelGood wheel }
    ensures reads_three_lines_or_tells_the_first_fault { HeadOwes wheel text.now result }
{
    if text.len() > TEXT_LIMIT {
        return Err(TextFault::TooLong(text.len()));
    }
    let rest = literal(text, NET_OPENING).ok_or(LineFault::form(1))?;
    let (named, rest) = keyed_number(rest, WHEEL, 2..=9).ok_or(LineFault::form(2))?;
    if named != u16::from(wheel) {
        return Err(TextFault::OtherWheel(named as u8));
    }
    let (styles, rest) = keyed_number(rest, STYLES, 1..=STYLE_LIMIT as u16).ok_or(LineFault::form(
        3,
    ))?;
    Ok((usize::from(styles), rest))
}

// Sees that the bytes are the end line, which has that number, and nothing else.
pub(crate) fn read_end(bytes: &[u8], line: u32) -> Result<(), LineFault>
    requires the_next_number_fits { line + 1 < 2 ^ 32 }
    ensures at_the_end_or_faulty { EndOwes line bytes.now result }
{
    let rest = literal(bytes, NET_END).ok_or(LineFault::form(line))?;
    if !rest.is_empty() {
        return Err(LineFault::form(line + 1));
    }
    Ok(())
}
