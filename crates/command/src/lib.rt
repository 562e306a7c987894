// The readers of a list's bytes and commands.
#![tactic(auto)]

mod reader;
mod view;

pub use view::{View, byte_at, byte_in, command_in, look_at, read_command};

// Numbers and no bytes, since callers may hand on commands of any numbers, and 8 and 9 refuse them.
// The site stands first in both, so that it is found in the same place.
#[derive(Clone, Copy)]
pub struct Delivery {
    pub site: usize,
    pub row: usize,
}

#[derive(Clone, Copy)]
pub struct Target {
    pub site: usize,
}

#[derive(Clone, Copy)]
pub enum Command {
    Start,
    Deliver(Delivery),
    Timeout(Target),
    Crash(Target),
    Recover(Target),
}

// A command, and the place after it. One type with `scan::Number` and `spelling::HeaderLine` would call all three a value.
#[derive(Clone, Copy)]
pub struct Parsed {
    pub command: Command,
    pub next: usize,
}
