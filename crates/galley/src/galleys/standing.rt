// Stand puts a galley on a net.
ghost use Rattle.galley.specs.Galleys.{HasSet};
ghost use Rattle.galley.specs.Refusals.{stand_outcome};
ghost use Rattle.std.specs.Prelude.{◌≡◌, [], IfOk, MatchResult};
ghost use Rattle.theory.specs.Outcomes.{done, refused};

use crate::galleys::Galley;
use net::nets::Net;
use std::alloc::{AllocError, Global};
use wheel::turning::Wheel;

impl<'a, W: Wheel> Galley<'a, W> {
    // A galley at the places' start values; it has set nothing.
    pub fn stand(heap: Global, net: &'a Net<W>) -> Result<Galley<'a, W>, AllocError>
        ensures has_set_the_empty_run { IfOk result (λ g. HasSet W.Wheel g []) }
        ensures fails_only_for_want_of_memory { MatchResult result (λ g. stand_outcome result ≡ done g) (λ _. stand_outcome result ≡ refused 99 []) }
        ensures stands_on_the_net { IfOk result (λ g. g.net.now ≡ net.now) }
    {
        let shown = net.start_values(heap)?;
        let saved = net.start_values(heap)?;
        Ok(Galley { net, shown, saved })
    }
}
