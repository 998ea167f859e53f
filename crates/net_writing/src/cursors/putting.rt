// Making a cursor, and putting bytes at it.
ghost use Rattle.std.specs.Prelude.{◌≡◌};
ghost use Rattle.net_writing.specs.Putting.{Puts, Room};

use crate::cursors::Cursor;

impl<'a> Cursor<'a> {
    // At the front of the buffer.
    pub(crate) fn new(buffer: &'a mut [u8]) -> Cursor<'a>
        ensures is_in_the_buffer { result.buffer.ghost_name ≡ buffer.entry.ghost_name }
        ensures keeps_the_bytes { result.buffer.now ≡ buffer.old }
        ensures is_at_the_front { result.at ≡ 0 }
    {
        Cursor { buffer, at: 0 }
    }
}

impl Cursor<'_> {
    // Puts the bytes, and moves behind them.
    pub(crate) fn put(&mut self, bytes: &[u8])
        requires room { Room self.old bytes.now }
        ensures puts_the_bytes { Puts self.old bytes.now self.new }
    {
        let end = self.at + bytes.len();
        self.buffer[self.at..end].copy_from_slice(bytes);
        self.at = end;
    }
}
