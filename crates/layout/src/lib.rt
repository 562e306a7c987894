// A world as 672 bytes: its length and layout number, and the place of a site.
// Places of a buffer of C, as docs/LAYOUT.md has them.
#![tactic(auto)]

ghost use Rattle.std.specs.Prelude.{◌≡◌, ◌+◌, ◌*◌, ◌<◌};
ghost use Rattle.layout.specs.Layout.{site_place};

// The length of a world.
pub const WORLD_BYTES: usize = 672;

// The layout number, a world's first byte.
pub const LAYOUT: u8 = 3;

// Where site k lies.
#[tactic(auto, unfolding(crate::specs::Layout::site_place))]
pub fn site_place(k: usize) -> usize
    requires { k < 16 }
    ensures { (result ≡ site_place k) × (result ≡ 32 + 40 * k) }
{
    32 + 40 * k
}
