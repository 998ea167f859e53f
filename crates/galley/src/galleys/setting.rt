// Set: one style more.
ghost use Rattle.std.specs.Prelude.{◌≡◌, ℕ, true, List, [], ◌∷◌, ◌++◌, is_ok, is_err};
ghost use Rattle.galley.specs.Galleys.{HasSet, net_of, marking};
ghost use Rattle.galley.specs.Refusals.{set_outcome, run_after};
ghost use Rattle.theory.specs.Outcomes.{SetOwes};
ghost use Rattle.theory.specs.TestAndFlip.{Enabled, Leads, FiringSequence, test_and_flip};

use crate::galleys::Galley;
use crate::galleys::refusals::SetRefusal;
use crate::galleys::rows::{first_refusing, turn_all};
use wheel::turning::Wheel;

impl<W: Wheel> Galley<'_, W> {
    // Accepts a style that no place refuses, and turns every place by its turn for that style.
    pub fn set(&mut self, style: u8) -> Result<(), SetRefusal>
        ensures answers_as_owed { (run : List ℕ) → HasSet W.Wheel self.old run → SetOwes (net_of W.Wheel self.old) run style (set_outcome result) }
        ensures has_set_the_run_after { (run : List ℕ) → HasSet W.Wheel self.old run → HasSet W.Wheel self.new (run_after (set_outcome result) run style) }
        ensures accepts_exactly_what_fires { (run : List ℕ) → HasSet W.Wheel self.old run → (is_ok result ≡ true → FiringSequence (net_of W.Wheel self.old) (run ++ style ∷ [])) × (FiringSequence (net_of W.Wheel self.old) (run ++ style ∷ []) → is_ok result ≡ true) }
        ensures fires_in_the_shown_marking { (is_ok result ≡ true → Leads (test_and_flip (net_of W.Wheel self.old)) (marking W.Wheel self.old) style (marking W.Wheel self.new)) × (Enabled (test_and_flip (net_of W.Wheel self.old)) (marking W.Wheel self.old) style → is_ok result ≡ true) }
        ensures stands_on_the_same_net { net_of W.Wheel self.new ≡ net_of W.Wheel self.old }
        ensures refused_calls_change_nothing { is_err result ≡ true → self.new ≡ self.old }
    {
        let Some(cells) = self.net.cells_for(usize::from(style)) else {
            return Err(SetRefusal::UnknownStyle);
        };
        match first_refusing(cells, &self.shown) {
            Some(refusing) => Err(SetRefusal::PlaceRefuses(refusing)),
            None => {
                turn_all(cells, &mut self.shown);
                Ok(())
            }
        }
    }
}
