// The check behind 17, for a world handed in to one command or to the report. `world` defines it (`valid_world`).
#![tactic(auto)]

mod limits;
mod sites;
mod whole;

pub use limits::Limits;
pub use whole::{valid_head, valid_world};
