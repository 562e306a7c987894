// The check behind 17: sizes, row count, news and the sites.
ghost use Rattle.std.specs.Prelude.{◌≡◌, ◌≤◌, ◌<◌, leb, eqb};
ghost use Rattle.choice.specs.Choice.{both};
ghost use Rattle.world.specs.Sizes.{max_rows, max_news, sizes_number};
ghost use Rattle.world.specs.Valid.{valid_site, valid_sites, valid_world};
ghost use Rattle.world.specs.Worlds.{site_of};

use crate::Limits;
use world::{Sizes, World};

// Sizes, row count and news.
#[tactic(auto, using(choice::specs::laws::ChoiceLaws::tests, refusals::specs::laws::RefusalLaws::answered))]
pub fn valid_head(sizes: Sizes, rows: usize, news: usize) -> bool
    ensures { result ≡ both (eqb (sizes_number sizes.n sizes.weights sizes.commit sizes.abort sizes.willing) 0)
        (both (leb rows max_rows) (leb news max_news)) }
{
    sizes.check().is_ok() && rows <= World::ROWS && news <= World::NEWS
}

// Of a lent world, so that it is not copied for each site.
fn valid_site_of(limits: Limits, world: &World, k: usize) -> bool
    requires { k < 16 }
    ensures { result ≡ valid_site k limits.n (site_of world.now k) }
{
    limits.valid_site(k, world.sites[k])
}

fn valid_sites(world: World) -> bool
    requires { world.n ≤ 16 }
    ensures { result ≡ valid_sites world.n world }
{
    let limits = Limits::new(world.n);
    (0..world.n).all(|k| valid_site_of(limits, &world, k))
}

// A world that may be played or reported.
pub fn valid_world(world: World) -> bool
    ensures { result ≡ valid_world world }
{
    valid_head(world.sizes(), world.rows, world.news) && valid_sites(world)
}
