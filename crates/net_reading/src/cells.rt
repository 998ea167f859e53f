// Reading the digits and cells of a place's line.
ghost use Rattle.net.specs.Views.{cell_of};
ghost use Rattle.net_reading.specs.Opening.{NoDigit, NoWanted, NoCell};
ghost use Rattle.std.specs.Option.{option_map};
ghost use Rattle.texts.specs.NetText.{digit as digit_byte, wanted_byte, cell_bytes};
ghost use Rattle.std.specs.Prelude.{◌≡◌, ◌++◌, MatchOption};

use net::cells::Cell;
use wheel::turning::Wheel;

// The position of a digit below k.
pub(crate) fn digit<W: Wheel>(byte: u8) -> Option<W>
    ensures reads_a_digit_of_the_wheel { MatchOption result (NoDigit W.Wheel.K byte) (λ x. byte ≡ digit_byte (W.Wheel.number x)) }
{
    let value = byte.checked_sub(b'0')?;
    if value >= W::positions() {
        return None;
    }
    Some(W::from_digit(value))
}

// The wanted value of a cell: none for a full stop.
fn wanted<W: Wheel>(byte: u8) -> Option<Option<W>>
    ensures reads_what_is_wanted { MatchOption result (NoWanted W.Wheel.K byte) (λ o. byte ≡ wanted_byte (option_map W.Wheel.number o)) }
{
    if byte == b'.' {
        return Some(None);
    }
    Some(Some(digit(byte)?))
}

// A cell and the bytes after it.
pub(crate) fn cell<'a, W: Wheel>(bytes: &'a [u8]) -> Option<(Cell<W>, &'a [u8])>
    ensures reads_a_cell_of_the_wheel { MatchOption result (NoCell W.Wheel.K bytes.now) (λ x. bytes.now ≡ cell_bytes (cell_of W.Wheel x.0) ++ x.1.now) }
{
    let [b' ', first, second, rest @ ..] = bytes else {
        return None;
    };
    let wanted = wanted(*first)?;
    let turn = digit(*second)?;
    Some((Cell { wanted, turn }, rest))
}
