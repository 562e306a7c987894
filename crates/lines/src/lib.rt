// The report's lines, each put into a lent buffer.
// No Display: see `text`. World and sites are handed on as `report_valid` has asked them; a type of valid worlds would copy 600 bytes.
#![tactic(auto)]

mod lines;
mod log;
mod words;

pub use lines::{put_last, put_sites, put_sizes};
