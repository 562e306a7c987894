// A world read from bytes, whole or a site at a time, and 17 asked of it where it lies.
#![tactic(auto)]

mod read;
mod valid;

pub use read::{long_at, site_at, sizes_at, word_at, world_at};
pub use valid::valid_at;
