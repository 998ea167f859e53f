// Reading the style lines into a sheet.
ghost use Rattle.std.specs.Prelude.{◌<◌, ◌≤◌, length};
ghost use Rattle.net_reading.specs.Names.{StyleOwes, NamesOwe};
ghost use Rattle.sheet.specs.Views.{names_of};
ghost use Rattle.theory.specs.Limits.{style_limit};

use lines::faults::LineFault;
use lines::keys::STYLE;
use lines::words::style_line;
use sheet::sheets::Sheet;

// Adds the name of a style line, and answers the bytes after the line. What is read has the name form, and there is
// room, so a name that is not added is repeated.
fn read_style<'a>(bytes: &'a [u8], line: u32, sheet: &mut Sheet) -> Result<&'a [u8], LineFault>
    requires room_for_a_name { length (names_of sheet.old) < style_limit }
    ensures adds_the_name_or_tells_what_is_wrong { StyleOwes line (names_of sheet.old) bytes.now (names_of sheet.new) result }
{
    let (name, rest) = style_line(bytes).ok_or(LineFault::form(line))?;
    sheet
        .add(name)
        .map_err(|_| LineFault::name(line, STYLE.len() as u32))?;
    Ok(rest)
}

// Reads the style lines into a sheet, and answers it and the bytes after them.
pub(crate) fn read_names<'a>(bytes: &'a [u8], styles: usize) -> Result<(Sheet, &'a [u8]), LineFault>
    requires few_styles { styles ≤ style_limit }
    ensures reads_every_name_or_tells_where_they_break_off { NamesOwe styles bytes.now result }
{
    let mut sheet = Sheet::blank();
    let mut rest = bytes;
    for style in 0..styles {
        rest = read_style(rest, (4 + style) as u32, &mut sheet)?;
    }
    Ok((sheet, rest))
}
