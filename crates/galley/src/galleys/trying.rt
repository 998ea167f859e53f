// Try: how far a run could be set.
ghost use Rattle.std.specs.Prelude.{◌≡◌, ℕ, true, List, map, is_err, IfOk, vec_len, MatchOption, slice_index};
ghost use Rattle.galley.specs.Galleys.{HasSet, net_of, marking};
ghost use Rattle.galley.specs.Refusals.{try_outcome};
ghost use Rattle.galley.specs.Standing.{Stands};
ghost use Rattle.net.specs.Views.{view, place_count};
ghost use Rattle.theory.specs.Outcomes.{TryOwes, FirstUnknown};
ghost use Rattle.theory.specs.Playing.{Longest};
ghost use Rattle.theory.specs.Positions.{Below as StylesBelow};
ghost use Rattle.theory.specs.TestAndFlip.{LongestFiring, test_and_flip};

use crate::galleys::Galley;
use crate::galleys::refusals::TryRefusal;
use crate::galleys::restoring::Restoring;
use crate::galleys::rows::{first_refusing, turn_all};
use net::nets::Net;
use theory::limits::RUN_LIMIT;
use wheel::turning::Wheel;

// The first step whose style is not below the style count.
fn first_unknown(run: &[u8], styles: usize) -> Option<usize>
    ensures is_the_first { MatchOption result (StylesBelow styles run.now) (FirstUnknown styles run.now) }
{
    run.iter().position(|style| usize::from(*style) >= styles)
}

// How many styles of the run can be set, one after the other; the shown values are then as before. It takes the galley's
// parts and not the galley, since one of them is lent to the guard, to be changed, beside the others.
fn longest_prefix<W: Wheel>(net: &Net<W>, shown: &mut Vec<W>, saved: &[W], run: &[u8]) -> usize
    requires saved_are_the_shown { saved.now ≡ shown.old.items }
    requires one_value_each { vec_len shown.old ≡ place_count net.now }
    requires styles_known { StylesBelow (view W.Wheel net.now).styles run.now }
    ensures shows_again_what_it_showed { shown.new.items ≡ shown.old.items }
    ensures as_many_as_before { vec_len shown.new ≡ vec_len shown.old }
    ensures is_the_longest { (before : List ℕ) → Stands W.Wheel net.now shown.old.items before → Longest (view W.Wheel net.now) before run.now result }
    ensures is_the_longest_to_fire { LongestFiring (test_and_flip (view W.Wheel net.now)) (λ p. slice_index (map W.Wheel.number shown.old.items) p) run.now result }
{
    let guard = Restoring { shown, saved };
    for (step, style) in run.iter().enumerate() {
        let cells = net.cells_for(usize::from(*style)).unwrap();
        if first_refusing(cells, guard.shown).is_some() {
            return step;
        }
        turn_all(cells, guard.shown);
    }
    run.len()
}

impl<W: Wheel> Galley<'_, W> {
    // Sets a run as far as it goes and answers how many styles were accepted; the galley then shows what it showed before.
    pub fn try_run(&mut self, run: &[u8]) -> Result<usize, TryRefusal>
        ensures answers_as_owed { (before : List ℕ) → HasSet W.Wheel self.old before → TryOwes (net_of W.Wheel self.old) before run.now (try_outcome result) }
        ensures counts_the_longest_firing_sequence { IfOk result (λ c. LongestFiring (test_and_flip (net_of W.Wheel self.old)) (marking W.Wheel self.old) run.now c) }
        ensures has_set_the_same_run { (before : List ℕ) → HasSet W.Wheel self.old before → HasSet W.Wheel self.new before }
        ensures shows_again_what_it_showed { self.new.shown.items ≡ self.old.shown.items }
        ensures stands_on_the_same_net { net_of W.Wheel self.new ≡ net_of W.Wheel self.old }
        ensures refused_calls_change_nothing { is_err result ≡ true → self.new ≡ self.old }
    {
        if run.len() > RUN_LIMIT {
            return Err(TryRefusal::RunTooLong(run.len()));
        }
        if let Some(step) = first_unknown(run, self.net.styles()) {
            return Err(TryRefusal::UnknownStyle(step));
        }
        self.saved.copy_from_slice(&self.shown);
        Ok(longest_prefix(self.net, &mut self.shown, &self.saved, run))
    }
}
