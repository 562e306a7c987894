// A site, its log and its state.
#![tactic(auto)]

mod bytes;
mod log;
mod states;

// Document 01 has both enums as fields of a site, each with a None of its own, so they are no Option.
#[derive(Clone, Copy, Debug, PartialEq, Eq)]
pub enum Group {
    None,
    Commit,
    Abort,
}

#[derive(Clone, Copy, Debug, PartialEq, Eq)]
pub enum Outcome {
    None,
    Commit,
    Abort,
}

#[derive(Clone, Copy, Debug, PartialEq, Eq)]
pub enum State {
    Active,
    Prepared,
    CommitGroup,
    AbortGroup,
    Committed,
    Aborted,
}

// The two quorum sizes, kept apart as kinds of number: document 01 has both types.
#[derive(Clone, Copy, Debug, PartialEq, Eq)]
pub struct CommitQuorum(pub usize);

#[derive(Clone, Copy, Debug, PartialEq, Eq)]
pub struct AbortQuorum(pub usize);

// Each vector has sixteen entries whatever n: no heap.
// One machine: what it knows of each site; the vector of its group record; up or down, its role, and the log's three places. The
// vectors come first, so that a site is copied in whole words. Codes are bytes and no `State`s, since a world can come with any: 17 refuses
// those above 5.
#[derive(Clone, Copy)]
pub struct Site {
    pub codes: [u8; 16],
    pub joined: [u8; 16],
    pub up: bool,
    pub coordinator: bool,
    pub prepared: bool,
    pub group: Group,
    pub outcome: Outcome,
}
