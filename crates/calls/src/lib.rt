// What the calls offered to C are made of: their numbers, and one command on a world that lies in bytes.
#![tactic(auto)]

mod command_at;
mod numbers;

pub use command_at::play_at;
pub use numbers::unfit_number;

// The length of every result buffer.
pub const RESULT_BYTES: usize = 8;
