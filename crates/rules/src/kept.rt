// CRASH: what the log keeps of the vector.
ghost use Rattle.std.specs.Prelude.{◌≡◌};
ghost use Rattle.rules.specs.Rules.{kept_vector};

use site::{Group, Site};

// What a crash leaves of the vector.
#[tactic(auto, unfolding(crate::specs::Rules::kept_vector, site::specs::Fields::zero_vector))]
pub fn kept_vector(site: Site) -> [u8; 16]
    ensures { result ≡ kept_vector site.group site.joined }
{
    let joined = site.joined;
    match site.group {
        Group::None => [0; 16],
        Group::Commit | Group::Abort => joined,
    }
}
