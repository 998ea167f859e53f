// Numbers in decimal, and the lines that end with one.
ghost use Rattle.std.specs.Prelude.{◌≡◌, ◌≤◌, ◌++◌, length, decimal};
ghost use Rattle.net_writing.specs.Putting.{Puts, Room};
ghost use Rattle.texts.specs.Lines.{ended};

use crate::cursors::Cursor;

// How many digits a number has. (By hand, as in `put_number`: with the kit's `itoa` Write of the smallest net took half as
// long again, and its proof rested on one crate more.)
fn number_length(n: usize) -> usize
    ensures counts_the_digits { result ≡ length (decimal n) }
    ensures at_most_twenty_digits { result ≤ 20 }
{
    if n < 10 {
        return 1;
    }
    number_length(n / 10) + 1
}

// The length of the line of a key and a number.
pub(crate) fn number_line_length(key: &[u8], n: usize) -> usize
    ensures counts_the_bytes { result ≡ length (ended (key.now ++ decimal n)) }
{
    key.len() + number_length(n) + 1
}

impl Cursor<'_> {
    // Puts the digits of a number.
    fn put_number(&mut self, n: usize)
        requires room { Room self.old (decimal n) }
        ensures puts_the_digits { Puts self.old (decimal n) self.new }
    {
        let last = [b'0' + (n % 10) as u8];
        if n >= 10 {
            self.put_number(n / 10);
        }
        self.put(&last);
    }

    // Puts the line of a key and a number.
    pub(crate) fn put_number_line(&mut self, key: &[u8], n: usize)
        requires room { Room self.old (ended (key.now ++ decimal n)) }
        ensures puts_the_line { Puts self.old (ended (key.now ++ decimal n)) self.new }
    {
        self.put(key);
        self.put_number(n);
        self.put(b"\n");
    }
}
