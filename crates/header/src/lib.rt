// The header of a list, of either edition, and the refusals 1 to 5 and 21.
#![tactic(auto)]

mod check;
mod editions;
mod length;

pub use check::{check_first, check_header};
pub use editions::{first_header, header_length, is_second, read_header, read_weights};
use site::{AbortQuorum, CommitQuorum};

// The header's numbers, each of its kind, as a list or a text may say them before 3 to 5 are asked. The quorums are document 01's types.
#[derive(Clone, Copy)]
pub struct Header {
    pub n: usize,
    pub commit: CommitQuorum,
    pub abort: AbortQuorum,
    pub willing: usize,
}
