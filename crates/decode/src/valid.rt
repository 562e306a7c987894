// The check behind 17, of a world that lies in bytes.
ghost use Rattle.std.specs.Prelude.{◌≡◌, ◌≤◌, length, get_or};
ghost use Rattle.world.specs.Valid.{valid_sites, valid_world};
ghost use Rattle.layout.specs.Layout.{world_at};
ghost use Rattle.decode.specs.laws.ValidLaws.{valid_head};

use crate::read::{long_at, site_at, sizes_at, word_at};
use layout::site_place;
use validity::Limits;

// The sites, each looked at where it lies.
fn valid_sites_at(bytes: &[u8], n: usize) -> bool
    requires { (n ≤ 16) × (672 ≤ length bytes.now) × (n ≡ get_or bytes.now 1 0) }
    ensures { result ≡ valid_sites n (world_at bytes.now) }
{
    let limits = Limits::new(n);
    (0..n).all(|k| limits.valid_site(k, site_at(bytes, site_place(k))))
}

// Sizes, row count and news.
#[tactic(auto, unfolding(crate::specs::laws::ValidLaws::valid_head, layout::specs::Layout::world_at))]
fn valid_head_at(bytes: &[u8]) -> bool
    requires { 672 ≤ length bytes.now }
    ensures { result ≡ valid_head bytes.now }
{
    validity::valid_head(sizes_at(bytes), word_at(bytes, 8), long_at(bytes, 10))
}

// The sites are looked at first, while little else has been read.
#[tactic(auto, using(crate::specs::laws::ValidLaws::ways_out))]
pub fn valid_at(bytes: &[u8]) -> bool
    requires { 672 ≤ length bytes.now }
    ensures { result ≡ valid_world (world_at bytes.now) }
{
    let n = usize::from(bytes[1]);
    world::sites_fit(n) && valid_sites_at(bytes, n) && valid_head_at(bytes)
}
