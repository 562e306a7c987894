// Codes and vectors of codes.
// A vector has sixteen bytes whatever n. docs/TRUST.md names `weigh`, `count` and `lowest_outcome`: they take any code and any n up to 16.
#![tactic(auto)]

mod codes;
mod vector;

pub use vector::{count, lowest_outcome, weigh};
