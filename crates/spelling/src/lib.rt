// A list as lines and as bytes: what both ways share, and a header and a command put into a buffer either way.
#![tactic(auto)]

mod bytes;
mod line;

ghost use Rattle.std.specs.Prelude.{◌≡◌};

pub use bytes::{command_length, put_command, put_header, put_pair};
use header::Header;
pub use line::{header_line_length, line_length, put_header_line, put_line};

// A header's line, and the place after it.
#[derive(Clone, Copy)]
pub struct HeaderLine {
    pub header: Header,
    pub next: usize,
}

// What an accepted call says of the output: the place up to which the input was read, and the output's length in the caller's buffer.
// That both are within bounds is promised by each call, since the bounds are those of its own list and buffer.
#[derive(Clone, Copy)]
pub struct Spelled {
    pub place: usize,
    pub length: usize,
}
