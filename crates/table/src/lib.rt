// Which row of which competition each of the store's places holds.
#![tactic(auto)]

mod marks;
mod scan;

pub use marks::valid_table;
pub use scan::{place_from, place_of};
