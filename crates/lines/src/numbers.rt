// Numbers of a text: decimal, below 1,000, with no sign and no leading zero.
ghost use Rattle.std.specs.Prelude.{◌≡◌, ℕ, ◌+◌, ◌<◌, List, [], MatchOption, ◌≢◌};
ghost use Rattle.lines.specs.Opening.{ReadsNumber};

use crate::literals::literal;
use std::ops::RangeInclusive;

// The value of a digit.
fn digit(byte: u8) -> Option<u16>
    ensures reads_a_digit { MatchOption result ((d : ℕ) → d < 10 → byte ≢ 48 + d) (λ d. (d < 10) × (byte ≡ 48 + d)) }
{
    byte.is_ascii_digit().then(|| u16::from(byte - b'0'))
}

// The number and the bytes after its line feed, where the bytes open with a number and a line feed. (The library's `parse`
// takes a sign and leading zeros, and is told where the digits end.)
fn any_number<'a>(bytes: &'a [u8]) -> Option<(u16, &'a [u8])>
    ensures reads_a_number { ReadsNumber [] 0 999 bytes.now result }
{
    let [first, after @ ..] = bytes else {
        return None;
    };
    let mut value = digit(*first)?;
    let mut rest = after;
    loop {
        match rest {
            [b'\n', after @ ..] => return Some((value, after)),
            [byte, after @ ..] if value > 0 && value < 100 => {
                value = 10 * value + digit(*byte)?;
                rest = after;
            }
            _ => return None,
        }
    }
}

// The number and the bytes after its line feed, where the bytes open with a number of the range and a line feed.
pub fn number<'a>(bytes: &'a [u8], range: RangeInclusive<u16>) -> Option<(u16, &'a [u8])>
    ensures reads_a_number_of_the_range { ReadsNumber [] range.start range.end bytes.now result }
{
    // By the ends, since `contains` leaves out the end of a range that was iterated to it.
    let (low, high) = range.into_inner();
    let (value, rest) = any_number(bytes)?;
    if value < low || high < value {
        return None;
    }
    Some((value, rest))
}

// The number and the bytes after its line feed, where the bytes open with the key, a number of the range and a line feed.
pub fn keyed_number<'a>(
    bytes: &'a [u8],
    key: &[u8],
    range: RangeInclusive<u16>,
) -> Option<(u16, &'a [u8])>
    ensures reads_a_number_after_the_key { ReadsNumber key.now range.start range.end bytes.now result }
{
    number(literal(bytes, key)?, range)
}
