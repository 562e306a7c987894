// A world written as bytes.
// A slice and a place, as docs/TRUST.md names the writers; the slice may be longer. A store for each byte, since each is of another field.
#![tactic(auto)]

ghost use Rattle.std.specs.Prelude.{◌≡◌, true, ℕ, ◌+◌, ◌≤◌, ◌<◌, length, get_or};
ghost use Rattle.world.specs.Worlds.{with_site, with_rows, with_news};
ghost use Rattle.layout.specs.Numbers.{put_number};
ghost use Rattle.layout.specs.Layout.{put_numbers, put_head, put_flags, put_site, put_sites, put_world, world_at, in_layout};

use layout::{LAYOUT, site_place};
use site::Site;
use world::World;

// The low bytes of a number, as many as asked, low byte first; more than the eight of `to_le_bytes` too.
#[tactic(auto, unfolding(layout::specs::Numbers::shifted))]
pub fn put_number(bytes: &mut [u8], at: usize, count: usize, number: usize)
    requires { at + count ≤ length bytes.old }
    ensures { bytes.new ≡ put_number count bytes.old at number }
{
    let mut rest = number;
    for byte in &mut bytes[at..at + count] {
        *byte = (rest % 256) as u8;
        rest /= 256;
    }
}

// The numbers, sixteen bytes.
#[tactic(auto, unfolding(layout::specs::Layout::put_numbers))]
fn put_numbers(bytes: &mut [u8], world: World)
    requires { 672 ≤ length bytes.old }
    ensures { bytes.new ≡ put_numbers bytes.old world }
{
    put_number(bytes, 0, 1, usize::from(LAYOUT));
    put_number(bytes, 1, 1, world.n);
    put_number(bytes, 2, 2, world.commit.0);
    put_number(bytes, 4, 2, world.abort.0);
    put_number(bytes, 6, 2, world.willing);
    put_number(bytes, 8, 2, world.rows);
    put_number(bytes, 10, 4, world.news);
    put_number(bytes, 14, 2, 0);
}

// The thirty-two bytes before the sites.
#[tactic(auto, unfolding(layout::specs::Layout::put_head))]
fn put_head(bytes: &mut [u8], world: World)
    requires { 672 ≤ length bytes.old }
    ensures { bytes.new ≡ put_head bytes.old world }
{
    put_numbers(bytes, world);
    code_bytes::put_codes(bytes, 16, world.weights);
}

// The eight bytes before a site's codes.
#[tactic(auto, unfolding(layout::specs::Layout::put_flags, layout::specs::Layout::flag_byte))]
fn put_flags(bytes: &mut [u8], at: usize, site: Site)
    requires { at + 40 ≤ length bytes.old }
    ensures { bytes.new ≡ put_flags bytes.old at site }
{
    bytes[at] = u8::from(site.up);
    bytes[at + 1] = u8::from(site.coordinator);
    bytes[at + 2] = u8::from(site.prepared);
    bytes[at + 3] = u8::from(site.group);
    bytes[at + 4] = u8::from(site.outcome);
    put_number(bytes, at + 5, 3, 0);
}

#[tactic(auto, unfolding(layout::specs::Layout::put_site))]
pub fn put_site(bytes: &mut [u8], at: usize, site: Site)
    requires { at + 40 ≤ length bytes.old }
    ensures { bytes.new ≡ put_site bytes.old at site }
{
    put_flags(bytes, at, site);
    code_bytes::put_codes(bytes, at + 8, site.codes);
    code_bytes::put_codes(bytes, at + 24, site.joined);
}

#[tactic(auto, unfolding(layout::specs::Layout::put_sites))]
fn put_sites(bytes: &mut [u8], world: World)
    requires { 672 ≤ length bytes.old }
    ensures { bytes.new ≡ put_sites 16 bytes.old world }
{
    for k in 0..16 {
        put_site(bytes, site_place(k), world.site(k));
    }
}

// The whole world, from the buffer's beginning.
#[tactic(auto, unfolding(layout::specs::Layout::put_world))]
pub fn put_world(bytes: &mut [u8], world: World)
    requires { 672 ≤ length bytes.old }
    ensures { bytes.new ≡ put_world bytes.old world }
{
    put_head(bytes, world);
    put_sites(bytes, world);
}

// One site, the row count and the news, into bytes inside the layout: all else of the world is there already.
pub fn put_change(bytes: &mut [u8], own: usize, site: Site, rows: usize, news: usize)
    requires { (own < 16) × (in_layout bytes.old ≡ true) × ((i : ℕ) → get_or bytes.old i 0 < 256) }
    ensures { bytes.new ≡ put_world bytes.old (with_news news (with_rows rows (with_site own site (world_at bytes.old)))) }
{
    put_number(bytes, 8, 2, rows);
    put_number(bytes, 10, 4, news);
    put_site(bytes, site_place(own), site);
}
