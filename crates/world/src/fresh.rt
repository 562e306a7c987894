// The maker of a world.
ghost use Rattle.std.specs.Prelude.{◌≡◌, ◌≤◌};
ghost use Rattle.world.specs.Worlds.{zero_world, fresh_sites, fresh_world};

use crate::{Sizes, World};
use site::{AbortQuorum, CommitQuorum, Site};

// The sites below n up, the others down.
fn fresh_sites(n: usize) -> [Site; World::SITES]
    requires { n ≤ 16 }
    ensures { result ≡ fresh_sites n }
{
    let mut sites = [Site::blank(false); World::SITES];
    sites[..n].fill(Site::blank(true));
    sites
}

impl World {
    // The world of zeros.
    pub fn zero() -> World
        ensures { result ≡ zero_world }
    {
        World {
            sites: fresh_sites(0),
            n: 0,
            commit: CommitQuorum(0),
            abort: AbortQuorum(0),
            willing: 0,
            weights: [0; World::SITES],
            rows: 0,
            news: 0,
        }
    }

    // A fresh world, or the world of zeros for refused sizes: any caller may hand in any.
    #[tactic(auto, using(choice::specs::laws::ChoiceLaws::tests, crate::specs::laws::SizesLaws::few_sites), unfolding(crate::specs::Worlds::fresh_world))]
    pub fn fresh(sizes: Sizes) -> World
        ensures { result ≡ fresh_world sizes.n sizes.weights sizes.commit sizes.abort sizes.willing }
    {
        if sizes.check().is_err() {
            return World::zero();
        }
        let weights = sizes.weights;
        World {
            sites: fresh_sites(sizes.n),
            n: sizes.n,
            commit: sizes.commit,
            abort: sizes.abort,
            willing: sizes.willing,
            weights,
            rows: 0,
            news: 0,
        }
    }
}
