// The six arcs of a Test and Flip net: what a cell is on the wheel of two.
ghost use Rattle.net.specs.Arcs.{arc_of, arc_bytes};
ghost use Rattle.net.specs.Views.{cell_of};
ghost use Rattle.theory.specs.Arcs.{SixArcs, arc_cell, table};
ghost use Rattle.theory.specs.TestAndFlip.{entries};
ghost use Rattle.wheel.specs.contracts.two.TwoWheel.TheImpl.{ghosts as of_two};
ghost use Rattle.std.specs.Prelude.{◌≡◌, Some};

use crate::cells::Cell;
use std::fmt;
use wheel::turning::Wheel;
use wheel::two::Two;

#[derive(Clone, Copy, Debug, PartialEq, Eq)]
pub enum Arc {
    // Neither tests nor turns.
    NoArc,
    // Tests for 0.
    TestZero,
    // Tests for 1.
    TestOne,
    // Turns, and tests nothing.
    Complement,
    // Tests for 0, and turns it to 1.
    Fill,
    // Tests for 1, and turns it to 0.
    Empty,
}

impl Arc {
    // What the arc does to the style that it leads to.
    pub fn word(self) -> &'static str
        ensures names_the_arc { result.now ≡ arc_bytes self }
    {
        match self {
            Arc::NoArc => "has no arc",
            Arc::TestZero => "tests for 0",
            Arc::TestOne => "tests for 1",
            Arc::Complement => "complements",
            Arc::Fill => "fills",
            Arc::Empty => "empties",
        }
    }
}

impl fmt::Display for Arc {
    ghost output = { λ arc. Some (arc_bytes arc) };

    fn fmt<W: fmt::Write>(&self, f: &mut fmt::Formatter<W>) -> fmt::Result {
        f.write_str(self.word())
    }
}

impl Cell<Two> {
    // The arc that the cell is.
    pub fn arc(self) -> Arc
        ensures is_the_cells_arc { arc_cell (arc_of result) ≡ cell_of of_two self }
        ensures has_the_cells_entries { entries 2 (cell_of of_two self) ≡ table (arc_of result) }
        ensures the_six_arcs_are_all_cells { SixArcs }
    {
        let turns = self.turn.digit() == 1;
        match self.wanted {
            None if turns => Arc::Complement,
            None => Arc::NoArc,
            Some(wanted) if wanted.digit() == 1 => { if turns { Arc::Empty } else { Arc::TestOne } }
            Some(_) => { if turns { Arc::Fill } else { Arc::TestZero } }
        }
    }
}
