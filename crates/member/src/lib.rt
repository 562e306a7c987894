// A member of a competition: one site with its own machine. What it is held to, what it is told and what it answers are defined here; `member_step` has the step.
#![tactic(auto)]

use row::Message;
use site::{AbortQuorum, CommitQuorum, Group, Outcome, Site};

// The sizes, which all members share; the member's own number, and whether it is willing.
// The sizes are fields of its own and no `Sizes`: willing is one flag here.
#[derive(Clone, Copy)]
pub struct Member {
    pub n: usize,
    pub weights: [u8; 16],
    pub commit: CommitQuorum,
    pub abort: AbortQuorum,
    pub own: usize,
    pub willing: bool,
}

// What a member is told. It is one site, so no order names one. The row of a delivery stays in the bytes after the command.
#[derive(Clone, Copy)]
pub enum Order {
    Start,
    Deliver,
    Timeout,
    Crash,
    Recover,
}

// The records that a step has written: at each place of the log what was written there, or none.
#[derive(Clone, Copy)]
pub struct Logged {
    pub prepare: bool,
    pub group: Group,
    pub outcome: Outcome,
}

// An accepted step: the next site, the message to send if any, how many entries rose, and the records written.
#[derive(Clone, Copy)]
pub struct Taken {
    pub site: Site,
    pub sent: Option<Message>,
    pub news: usize,
    pub logged: Logged,
}
