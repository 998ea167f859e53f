// A galley stands on a net and plays it, one style after the other.
ghost use Rattle.galley.specs.Standing.{StandsAfterSome};
ghost use Rattle.net.specs.Views.{place_count};
ghost use Rattle.std.specs.Prelude.{◌≡◌, vec_len};

use net::nets::Net;
use wheel::turning::Wheel;

pub mod menu;
pub mod refusals;
mod restoring;
mod rows;
pub mod setting;
pub mod standing;
pub mod trying;

// The net, and what each place shows after the run that has been set.
// `saved` is room for a copy of the shown values, which Try makes, so that Try allocates nothing.
// That some run has been set is said here; calls still speak of the run itself, which the values do not tell.
#[derive(Drop)]
pub struct Galley<'a, W: Wheel> {
    net: &'a Net<W>,
    shown: Vec<W>,
    saved: Vec<W>,
    ghost one_value_each: { vec_len shown ≡ place_count net.now },
    ghost room_to_save: { vec_len saved ≡ vec_len shown },
    ghost has_set_some_run: { StandsAfterSome W.Wheel net.now shown.items },
}
