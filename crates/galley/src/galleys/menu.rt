// May: which styles Set would accept.
ghost use Rattle.std.specs.Prelude.{ℕ, List};
ghost use Rattle.galley.specs.Galleys.{HasSet, net_of, marking};
ghost use Rattle.galley.specs.Standing.{StandsAfterSome};
ghost use Rattle.theory.specs.Menus.{MayOwes, Offers};
ghost use Rattle.theory.specs.TestAndFlip.{Enabled, test_and_flip};

use crate::galleys::Galley;
use wheel::turning::Wheel;

impl<W: Wheel> Galley<'_, W> {
    // Bit t is 1 exactly when Set would accept style t. (The layout program reads the bits, so no set stands for them.)
    pub fn may(&self) -> u16
        ensures offers_exactly_what_set_accepts { (run : List ℕ) → HasSet W.Wheel self.now run → MayOwes (net_of W.Wheel self.now) run result }
        ensures every_galley_has_set_some_run { StandsAfterSome W.Wheel self.now.net.now self.now.shown.items }
        ensures offers_exactly_what_is_enabled { Offers (Enabled (test_and_flip (net_of W.Wheel self.now)) (marking W.Wheel self.now)) result }
    {
        let mut menu = 0u16;
        for style in 0..self.net.styles() {
            let cells = self.net.cells_for(style).unwrap();
            // By a rule of this project May goes over the places itself and stops at the first that refuses;
            // `first_refusing` also reads digits.
            let refusing = 'first: {
                for (place, cell) in cells.iter().enumerate() {
                    if cell.refuses(self.shown[place]) {
                        break 'first Some(place);
                    }
                }
                None
            };
            if refusing.is_none() {
                menu |= 1 << style;
            }
        }
        menu
    }
}
