// Reading a net.
ghost use Rattle.std.specs.Prelude.{◌≡◌, ◌<◌, ◌≤◌, map, length, IfOk, vec_len, MatchOption};
ghost use Rattle.net.specs.Views.{view, cell_of, CellsFor, place_count};
ghost use Rattle.theory.specs.Nets.{Proper, place as place_number};
ghost use Rattle.theory.specs.Places.{cell as cell_for};

use crate::cells::Cell;
use crate::nets::Net;
use std::alloc::{AllocError, Global};
use wheel::turning::Wheel;

impl<W: Wheel> Net<W> {
    // How many styles there are.
    pub fn styles(&self) -> usize
        ensures counts_the_styles { result ≡ (view W.Wheel self.now).styles }
        ensures every_net_is_proper { Proper (view W.Wheel self.now) }
    {
        self.styles
    }

    // How many places there are.
    pub fn places(&self) -> usize
        ensures counts_the_places { result ≡ length (view W.Wheel self.now).places }
    {
        self.starts.len()
    }

    // The start value of a place, if there is such a place.
    pub fn start(&self, place: usize) -> Option<W>
        ensures is_the_start_value { MatchOption result (length (view W.Wheel self.now).places ≤ place) (λ s. (place < length (view W.Wheel self.now).places) × (W.Wheel.number s ≡ (place_number (view W.Wheel self.now) place).start)) }
    {
        self.starts.get(place).copied()
    }

    // The cell of a place for a style, if there are such.
    pub fn cell(&self, place: usize, style: usize) -> Option<Cell<W>>
        ensures is_the_cell { MatchOption result ((place < length (view W.Wheel self.now).places) × (style < (view W.Wheel self.now).styles) → ⊥) (λ c. (place < length (view W.Wheel self.now).places) × (style < (view W.Wheel self.now).styles) × (cell_of W.Wheel c ≡ cell_for (place_number (view W.Wheel self.now) place) style)) }
    {
        self.cells_for(style)?.get(place).copied()
    }

    // The cells of all places for one style, if there is such a style.
    pub fn cells_for(&self, style: usize) -> Option<&[Cell<W>]>
        ensures one_cell_for_each_place { MatchOption result ((view W.Wheel self.now).styles ≤ style) (λ cells. CellsFor W.Wheel self.now style cells.now) }
    {
        if style >= self.styles {
            return None;
        }
        let places = self.starts.len();
        let from = style * places;
        Some(&self.cells[from..from + places])
    }

    // A copy of the start values.
    pub fn start_values(&self, heap: Global) -> Result<Vec<W>, AllocError>
        ensures copies_the_start_values { IfOk result (λ v. map W.Wheel.number v.items ≡ map (λ p. p.start) (view W.Wheel self.now).places) }
        ensures one_for_each_place { IfOk result (λ v. vec_len v ≡ place_count self.now) }
    {
        Vec::from_slice(heap, &self.starts)
    }
}
