// Parts of a world.
ghost use Rattle.std.specs.Prelude.{◌≡◌, ◌<◌};
ghost use Rattle.world.specs.Worlds.{site_of, sizes_held};

use crate::{Sizes, World};
use site::Site;

impl World {
    pub fn site(self, i: usize) -> Site
        requires { i < 16 }
        ensures { result ≡ site_of self i }
    {
        self.sites[i]
    }

    pub fn sizes(self) -> Sizes
        ensures { result ≡ sizes_held self }
    {
        let weights = self.weights;
        Sizes {
            n: self.n,
            weights,
            commit: self.commit,
            abort: self.abort,
            willing: self.willing,
        }
    }
}
