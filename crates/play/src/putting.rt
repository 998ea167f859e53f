// Putting a word to a galley.
ghost use Rattle.galley.specs.Galleys.{HasSet, net_of, marking};
ghost use Rattle.galley.specs.Refusals.{set_outcome, run_after};
ghost use Rattle.play.specs.Words.{number_put};
ghost use Rattle.std.specs.Prelude.{◌≡◌, ℕ, true, List, [], ◌∷◌, ◌++◌, is_ok, is_err};
ghost use Rattle.theory.specs.Outcomes.{SetOwes};
ghost use Rattle.theory.specs.TestAndFlip.{Enabled, Leads, FiringSequence, test_and_flip};
ghost use Rattle.wheel.specs.contracts.two.TwoWheel.TheImpl.{ghosts as of_two};

use crate::styles::STYLES;
use galley::galleys::Galley;
use galley::galleys::refusals::SetRefusal;
use wheel::two::Two;

// Puts the style that a word names to Set. A word that names none goes to Set too, so that its refusal is Set's own.
pub fn put(galley: &mut Galley<'_, Two>, style: Option<u8>) -> Result<(), SetRefusal>
    ensures answers_as_owed { (run : List ℕ) → HasSet of_two galley.old run → SetOwes (net_of of_two galley.old) run (number_put style) (set_outcome result) }
    ensures has_set_the_run_after { (run : List ℕ) → HasSet of_two galley.old run → HasSet of_two galley.new (run_after (set_outcome result) run (number_put style)) }
    ensures accepts_exactly_what_fires { (run : List ℕ) → HasSet of_two galley.old run → (is_ok result ≡ true → FiringSequence (net_of of_two galley.old) (run ++ number_put style ∷ [])) × (FiringSequence (net_of of_two galley.old) (run ++ number_put style ∷ []) → is_ok result ≡ true) }
    ensures fires_in_the_shown_marking { (is_ok result ≡ true → Leads (test_and_flip (net_of of_two galley.old)) (marking of_two galley.old) (number_put style) (marking of_two galley.new)) × (Enabled (test_and_flip (net_of of_two galley.old)) (marking of_two galley.old) (number_put style) → is_ok result ≡ true) }
    ensures stands_on_the_same_net { net_of of_two galley.new ≡ net_of of_two galley.old }
    ensures refused_calls_change_nothing { is_err result ≡ true → galley.new ≡ galley.old }
{
    galley.set(style.unwrap_or(STYLES.len() as u8))
}
