// RECOVER with an empty log.
// The code goes with `write_outcome`, which takes any.
ghost use Rattle.std.specs.Prelude.{◌≡◌, ◌<◌};
ghost use Rattle.rules.specs.Rules.{restart};
ghost use Rattle.rules.specs.Steps.{stepped};

use crate::Step;
use crate::send::silent;
use site::{Outcome, Site};

// An aborted subordinate, and no row.
#[tactic(auto, unfolding(crate::specs::Rules::restart, crate::specs::Rules::silent, site::specs::Fields::with_up, site::specs::Fields::with_coordinator, site::specs::Fields::with_outcome, site::specs::Fields::with_codes, site::specs::Records::write_outcome, site::specs::Records::with_own, site::specs::Records::outcome_of, site::specs::Records::record_code))]
pub fn restarted(own: usize, mut site: Site) -> Step
    requires { own < 16 }
    ensures { stepped result ≡ (restart own site).step }
{
    site.up = true;
    site.coordinator = false;
    silent(site.write_outcome(own, Outcome::Abort, 5))
}
