// A world read from bytes.
// A slice and a place, as docs/TRUST.md names `site_at` and `world_at`; the slice may be longer than what is read.
ghost use Rattle.std.specs.Prelude.{◌≡◌, ◌+◌, ◌≤◌, length};
ghost use Rattle.word.specs.Words.{word_at};
ghost use Rattle.world.specs.Worlds.{sizes_held};
ghost use Rattle.layout.specs.Numbers.{long_at};
ghost use Rattle.layout.specs.Layout.{site_at, world_at};

use layout::site_place;
use site::{AbortQuorum, CommitQuorum, Group, Outcome, Site};
use world::{Sizes, World};

// 16 bits, low byte first.
#[tactic(auto, unfolding(word::specs::Words::word_at))]
pub fn word_at(bytes: &[u8], at: usize) -> usize
    requires { at + 2 ≤ length bytes.now }
    ensures { result ≡ word_at bytes.now at }
{
    usize::from(u16::from_le_bytes([bytes[at], bytes[at + 1]]))
}

// 32 bits, low byte first; a usize has no From<u32>.
#[tactic(auto, unfolding(layout::specs::Numbers::long_at, word::specs::Words::word_at))]
pub fn long_at(bytes: &[u8], at: usize) -> usize
    requires { at + 4 ≤ length bytes.now }
    ensures { result ≡ long_at bytes.now at }
{
    u32::from_le_bytes([bytes[at], bytes[at + 1], bytes[at + 2], bytes[at + 3]]) as usize
}

// The site that lies at a place. In line, so that a caller reads what it looks at.
#[inline(always)]
#[tactic(auto, unfolding(layout::specs::Layout::site_at))]
pub fn site_at(bytes: &[u8], at: usize) -> Site
    requires { at + 40 ≤ length bytes.now }
    ensures { result ≡ site_at bytes.now at }
{
    Site {
        up: bytes[at] == 1,
        coordinator: bytes[at + 1] == 1,
        prepared: bytes[at + 2] == 1,
        group: Group::from(bytes[at + 3]),
        joined: code_bytes::get_codes(bytes, at + 24),
        outcome: Outcome::from(bytes[at + 4]),
        codes: code_bytes::get_codes(bytes, at + 8),
    }
}

// The sizes of the world that the bytes hold.
#[tactic(auto, unfolding(layout::specs::Layout::world_at))]
pub fn sizes_at(bytes: &[u8]) -> Sizes
    requires { 672 ≤ length bytes.now }
    ensures { result ≡ sizes_held (world_at bytes.now) }
{
    Sizes {
        n: usize::from(bytes[1]),
        weights: code_bytes::get_codes(bytes, 16),
        commit: CommitQuorum(word_at(bytes, 2)),
        abort: AbortQuorum(word_at(bytes, 4)),
        willing: word_at(bytes, 6),
    }
}

// The world that the bytes hold, whether or not they are inside the layout.
#[tactic(auto, unfolding(layout::specs::Layout::world_at))]
pub fn world_at(bytes: &[u8]) -> World
    requires { 672 ≤ length bytes.now }
    ensures { result ≡ world_at bytes.now }
{
    let sizes = sizes_at(bytes);
    let weights = sizes.weights;
    World {
        sites: std::array::from_fn(|k| site_at(bytes, site_place(k))),
        n: sizes.n,
        commit: sizes.commit,
        abort: sizes.abort,
        willing: sizes.willing,
        weights,
        rows: word_at(bytes, 8),
        news: long_at(bytes, 10),
    }
}
