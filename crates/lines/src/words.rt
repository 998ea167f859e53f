// Style names of a text.
ghost use Rattle.std.specs.Prelude.{◌≡◌, ℕ, List, MatchOption};
ghost use Rattle.lines.specs.Opening.{NameBytes, FirstWord, StyleLine};
ghost use Rattle.texts.specs.Names.{name_byte as is_name_byte};

use crate::keys::STYLE;
use crate::literals::literal;
use texts::limits::NAME_LIMIT;

// Whether a style name may have the byte.
fn name_byte(byte: u8) -> bool
    ensures tells_name_bytes { result ≡ is_name_byte byte }
{
    byte.is_ascii_lowercase() || byte.is_ascii_digit() || byte == b'-'
}

// How many name bytes the bytes open with, counted to one past the limit of a name.
fn name_length(bytes: &[u8]) -> usize
    ensures counts_the_name_bytes_in_front { NameBytes bytes.now result }
{
    bytes
        .iter()
        .take(NAME_LIMIT + 1)
        .take_while(|byte| name_byte(**byte))
        .count()
}

// The longest front of name bytes and the bytes after it, where that front is a style name.
pub fn word<'a>(bytes: &'a [u8]) -> Option<(&'a [u8], &'a [u8])>
    ensures splits_off_the_first_word { MatchOption result ((w rest : List ℕ) → FirstWord bytes.now w rest → ⊥) (λ x. FirstWord bytes.now x.0.now x.1.now) }
{
    match name_length(bytes) {
        count @ 1..=NAME_LIMIT => Some(bytes.split_at(count)),
        _ => None,
    }
}

// The name and the bytes after its line feed, where the bytes open with a style's line.
pub fn style_line<'a>(bytes: &'a [u8]) -> Option<(&'a [u8], &'a [u8])>
    ensures reads_a_styles_line { MatchOption result ((name rest : List ℕ) → StyleLine bytes.now name rest → ⊥) (λ x. StyleLine bytes.now x.0.now x.1.now) }
{
    let (name, after) = word(literal(bytes, STYLE)?)?;
    let rest = literal(after, b"\n")?;
    Some((name, rest))
}
