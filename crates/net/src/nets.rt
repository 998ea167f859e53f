// Nets on any wheel.
ghost use Rattle.std.specs.Prelude.{◌≡◌, ◌*◌, ◌≤◌, vec_len};
ghost use Rattle.theory.specs.Limits.{style_limit, place_limit};

use crate::cells::Cell;
use wheel::turning::Wheel;

mod columns;
pub mod errors;
pub mod making;
pub mod reading;

// 1 to 16 styles, at most 256 places, and one cell for each place and style.
// Cells lie by style: those of all places for style 0 first, then those for style 1, and so on. One table holds them, since a
// vector in each place would be an allocation for each.
// A net has no `Model`: it would call nets of the same numbers equal, and a refused call keeps the very values.
#[derive(Drop)]
pub struct Net<W: Wheel> {
    styles: usize,
    starts: Vec<W>,
    cells: Vec<Cell<W>>,
    ghost some_style: { 1 ≤ styles },
    ghost few_styles: { styles ≤ style_limit },
    ghost few_places: { vec_len starts ≤ place_limit },
    ghost one_cell_each: { vec_len cells ≡ styles * vec_len starts },
}
