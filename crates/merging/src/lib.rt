// Merging what a row says into the vector that a site holds, the sender's entry first.
// Codes are bytes in arrays of sixteen whatever n, see `site::Site`: sixteen are merged at once. docs/TRUST.md names `merge` with plain numbers.
#![tactic(auto)]

mod entries;
mod entry;
mod news;

pub use entries::merge;

// What merging gives: the vector, and how many of its entries rose.
#[derive(Clone, Copy)]
pub struct Merged {
    pub codes: [u8; 16],
    pub news: usize,
}
