// What a command is told of a world beside its site.
ghost use Rattle.std.specs.Prelude.{◌≡◌};
ghost use Rattle.play.specs.laws.Changes.{head_of};

use crate::Head;
use world::World;

#[tactic(auto, unfolding(crate::specs::laws::Changes::head_of))]
pub fn head_of(world: World) -> Head
    ensures { result ≡ head_of world }
{
    Head {
        sizes: world.sizes(),
        rows: world.rows,
        news: world.news,
    }
}
