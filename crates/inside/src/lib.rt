// The test that bytes are inside the layout.
// A slice and a place, as in `decode`.
#![tactic(auto)]

ghost use Rattle.std.specs.Prelude.{◌≡◌, ℕ, ◌+◌, ◌≤◌, ◌<◌, leb, length, get_or};
ghost use Rattle.choice.specs.Choice.{both};
ghost use Rattle.layout.specs.Layout.{site_place, at_most, site_in_layout, sites_in_layout, in_layout};

use layout::{LAYOUT, WORLD_BYTES, site_place};

// So many bytes from a place on are at most the limit.
pub fn at_most(bytes: &[u8], at: usize, count: usize, limit: u8) -> bool
    requires { at + count ≤ length bytes.now }
    ensures { result ≡ at_most count bytes.now at limit }
{
    bytes[at..at + count].iter().all(|byte| *byte <= limit)
}

#[tactic(auto, using(choice::specs::laws::ChoiceLaws::tests), unfolding(layout::specs::Layout::site_in_layout))]
pub fn site_in_layout(bytes: &[u8], at: usize) -> bool
    requires { at + 40 ≤ length bytes.now }
    ensures { result ≡ site_in_layout bytes.now at }
{
    at_most(bytes, at, 3, 1) && at_most(bytes, at + 3, 2, 2) && at_most(bytes, at + 5, 3, 0)
}

fn sites_in_layout(bytes: &[u8]) -> bool
    requires { 672 ≤ length bytes.now }
    ensures { result ≡ sites_in_layout 16 bytes.now }
{
    (0..16).all(|k| site_in_layout(bytes, site_place(k)))
}

// Any bytes of any length.
#[tactic(auto, using(choice::specs::laws::ChoiceLaws::tests), unfolding(layout::specs::Layout::in_layout))]
pub fn in_layout(bytes: &[u8]) -> bool
    ensures inside { result ≡ in_layout bytes.now }
    ensures bytes { (i : ℕ) → get_or bytes.now i 0 < 256 }
{
    bytes.len() == WORLD_BYTES
        && bytes[0] == LAYOUT
        && at_most(bytes, 14, 2, 0)
        && sites_in_layout(bytes)
}
