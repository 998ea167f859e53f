// Makers of nets.
ghost use Rattle.net.specs.Making.{IdleOwes, PutOwes};
ghost use Rattle.net.specs.Views.{view, idle_net};
ghost use Rattle.std.specs.Prelude.{◌≡◌, true, is_err};

use crate::cells::Cell;
use crate::filling::filled;
use crate::nets::Net;
use crate::nets::columns::write_column;
use crate::nets::errors::{NetError, PlaceError};
use std::alloc::Global;
use theory::limits::{PLACE_LIMIT, STYLE_LIMIT};
use wheel::turning::Wheel;

impl<W: Wheel> Net<W> {
    // One style, and no place.
    pub fn blank(heap: Global) -> Net<W>
        ensures has_one_style_and_no_place { view W.Wheel result ≡ idle_net W.Wheel 1 0 }
    {
        Net {
            styles: 1,
            starts: Vec::new(heap),
            cells: Vec::new(heap),
        }
    }

    // Places that all start at 0, test nothing and turn nothing; `put_place` then gives each its values.
    pub fn idle(heap: Global, styles: usize, places: usize) -> Result<Net<W>, NetError>
        ensures made_idle_or_refused_past_a_limit { IdleOwes W.Wheel styles places result }
    {
        if !(1..=STYLE_LIMIT).contains(&styles) {
            return Err(NetError::StyleCount(styles));
        }
        if places > PLACE_LIMIT {
            return Err(NetError::PlaceCount(places));
        }
        let zero = W::from_digit(0);
        let starts = filled(heap, zero, places)?;
        let cells = filled(heap, Cell::untested(zero), styles * places)?;
        Ok(Net {
            styles,
            starts,
            cells,
        })
    }

    // Gives a place its start value, and its cell for each style.
    pub fn put_place(&mut self, place: usize, start: W, cells: &[Cell<W>]) -> Result<(), PlaceError>
        ensures put_or_refused { PutOwes W.Wheel self.old place start cells.now self.new result }
        ensures refused_calls_change_nothing { is_err result ≡ true → self.new ≡ self.old }
    {
        let places = self.starts.len();
        if place >= places {
            return Err(PlaceError::NoSuchPlace);
        }
        if cells.len() != self.styles {
            return Err(PlaceError::CellCount);
        }
        self.starts[place] = start;
        write_column(&mut self.cells, places, place, cells);
        Ok(())
    }
}
