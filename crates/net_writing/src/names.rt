// The lines of the style names.
ghost use Rattle.std.specs.Prelude.{◌≡◌, length};
ghost use Rattle.net_writing.specs.Blocks.{name_lines};
ghost use Rattle.net_writing.specs.Putting.{Puts, Room};
ghost use Rattle.sheet.specs.Views.{names_of};
ghost use Rattle.texts.specs.Forms.{style_line};
ghost use Rattle.texts.specs.Lines.{ended};

use crate::cursors::Cursor;
use lines::keys::STYLE;
use sheet::sheets::Sheet;

// The length of the lines of all names.
pub(crate) fn names_length(sheet: &Sheet) -> usize
    ensures counts_the_bytes { result ≡ length (name_lines (names_of sheet.now)) }
{
    sheet
        .names()
        .iter()
        .map(|name| STYLE.len() + name.bytes().len() + 1)
        .sum()
}

// Puts the line of a name.
fn put_name(cursor: &mut Cursor<'_>, name: &[u8])
    requires room { Room cursor.old (ended (style_line name.now)) }
    ensures puts_the_line { Puts cursor.old (ended (style_line name.now)) cursor.new }
{
    cursor.put(STYLE);
    cursor.put(name);
    cursor.put(b"\n");
}

// Puts the lines of all names.
pub(crate) fn put_names(cursor: &mut Cursor<'_>, sheet: &Sheet)
    requires room { Room cursor.old (name_lines (names_of sheet.now)) }
    ensures puts_the_lines { Puts cursor.old (name_lines (names_of sheet.now)) cursor.new }
{
    for name in sheet.names() {
        put_name(cursor, name.bytes());
    }
}
