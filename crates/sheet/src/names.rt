// Names as a sheet stores them.
ghost use Rattle.std.specs.Prelude.{◌≡◌, ℕ, ◌<◌, ◌≤◌, true, length, slice_index};
ghost use Rattle.texts.specs.Limits.{name_limit};
ghost use Rattle.texts.specs.Names.{name_byte};

use texts::limits::NAME_LIMIT;

mod forms;
mod storing;

// A name of the name form: the first `len` bytes.
// An array and the name's length: plain memory without a heap, and `Copy`, which an `ArrayVec` is not.
#[derive(Clone, Copy)]
pub struct Name {
    bytes: [u8; NAME_LIMIT],
    len: usize,
    ghost size: { length bytes ≡ name_limit },
    ghost some: { 1 ≤ len },
    ghost few: { len ≤ name_limit },
    ghost formed: { (i : ℕ) → i < len → name_byte (slice_index bytes i) ≡ true },
}
