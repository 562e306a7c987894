// The world of a competition: its sizes and its maker.
#![tactic(auto)]

mod check;
mod fresh;
mod parts;

pub use check::{Sizes, sites_fit};

// Sixteen sites and weights whatever n, the weights together, as the layout has them: so sixteen are compared at once.
#[derive(Clone, Copy)]
pub struct World {
    pub sites: [site::Site; World::SITES],
    pub n: usize,
    pub commit: site::CommitQuorum,
    pub abort: site::AbortQuorum,
    pub willing: usize,
    pub weights: [u8; World::SITES],
    pub rows: usize,
    pub news: usize,
}

impl World {
    pub const SITES: usize = 16;

    pub const ROWS: usize = 1024;

    pub const NEWS: usize = 491520;

    pub const LIST_BYTES: usize = 32768;

    pub const TEXT_BYTES: usize = 196620;

    pub const STORE_BYTES: usize = 20480;

    pub const REPORT_BYTES: usize = 1024;
}
