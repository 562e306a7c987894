// A change put into its world.
ghost use Rattle.std.specs.Prelude.{◌≡◌, ◌<◌};
ghost use Rattle.play.specs.laws.Changes.{put_change};

use crate::Change;
use world::World;

impl Change {
    #[tactic(auto, unfolding(world::specs::Worlds::with_site, world::specs::Worlds::with_rows, world::specs::Worlds::with_news))]
    pub fn put(self, world: &mut World, own: usize)
        requires { own < 16 }
        ensures { world.new ≡ put_change own self world.old }
    {
        world.sites[own] = self.site;
        world.rows = self.rows;
        world.news = self.news;
    }
}
