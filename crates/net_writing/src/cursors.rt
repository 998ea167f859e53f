// Cursors: where the next bytes go in a buffer.
ghost use Rattle.std.specs.Prelude.{◌≤◌, length};

mod putting;

// A buffer, and the index in it after the bytes that were put. (The library's `io::Cursor` answers each write by an
// `io::Result`; here there is room, and nothing can fail.)
#[derive(Drop)]
pub(crate) struct Cursor<'a> {
    buffer: &'a mut [u8],
    at: usize,
    ghost within: { at ≤ length buffer.now },
}
