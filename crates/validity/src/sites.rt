// A site as 17 wants it.
// Codes are bytes (`site::Site`), so the own entry of a group record is compared with its number.
ghost use Rattle.std.specs.Prelude.{◌≡◌, ◌<◌};
ghost use Rattle.world.specs.Valid.{valid_group, valid_site};

use crate::limits::Limits;
use site::{Group, Site};

impl Limits {
    // A group record's vector: its own entry is the group, and it is all 0 with no group.
    #[tactic(auto, using(choice::specs::laws::ChoiceLaws::tests), unfolding(world::specs::Valid::valid_group))]
    fn valid_group(self, own: usize, group: Group, joined: [u8; 16]) -> bool
        requires { own < 16 }
        ensures { result ≡ valid_group group own self.n joined }
    {
        match group {
            Group::None => joined == [0; 16],
            Group::Commit => self.admit(joined) && joined[own] == 2,
            Group::Abort => self.admit(joined) && joined[own] == 3,
        }
    }

    // A site: its vector, whose own entry is its state, and its group record. In line, so that a site read from bytes is not put together first.
    #[inline(always)]
    #[tactic(auto, using(choice::specs::laws::ChoiceLaws::tests), unfolding(world::specs::Valid::valid_site))]
    pub fn valid_site(self, own: usize, site: Site) -> bool
        requires { own < 16 }
        ensures { result ≡ valid_site own self.n site }
    {
        let codes = site.codes;
        let group = site.group;
        let joined = site.joined;
        self.admit(codes)
            && codes[own] == u8::from(site.state())
            && self.valid_group(own, group, joined)
    }
}
