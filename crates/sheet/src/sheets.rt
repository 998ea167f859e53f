// Sheets: the names of the styles.
ghost use Rattle.std.specs.Prelude.{◌≡◌, ◌≤◌, length};
ghost use Rattle.sheet.specs.Stored.{first_names};
ghost use Rattle.texts.specs.Names.{Different};
ghost use Rattle.theory.specs.Limits.{style_limit};

use crate::names::Name;
use theory::limits::STYLE_LIMIT;

pub mod adding;
pub mod errors;
pub mod reading;

// The first `count` names, no two of them equal.
// An array and a count: plain memory without a heap, and `Copy`, which an `ArrayVec` is not.
// A sheet has no `Model`: one of a `Copy` type gives its fields back, and the names do not tell the unused slots.
#[derive(Clone, Copy)]
pub struct Sheet {
    names: [Name; STYLE_LIMIT],
    count: usize,
    ghost size: { length names ≡ style_limit },
    ghost few: { count ≤ style_limit },
    ghost different: { Different (first_names names count) },
}
