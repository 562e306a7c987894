// One command: what it is told, what it leaves, and how a rule's step enters them. The command itself is acted out in `act`, on a world in
// `perform`.
#![tactic(auto)]

mod entry;
mod named;
mod put;
mod told;

pub use entry::enter;
pub use named::{actor, named_site};
use site::Site;
pub use told::head_of;
use world::{Sizes, World};

// What an accepted command leaves beside the store: the world, and the place after the operands.
#[derive(Clone, Copy)]
pub struct Played {
    pub world: World,
    pub place: usize,
}

// A world without its sites.
#[derive(Clone, Copy)]
pub struct Head {
    pub sizes: Sizes,
    pub rows: usize,
    pub news: usize,
}

// What an accepted command leaves of the one site that it acts on, of the row count and of the news, and the place after its operands. So list
// playing need not copy the world, about 600 bytes, for every command.
#[derive(Clone, Copy)]
pub struct Change {
    pub site: Site,
    pub rows: usize,
    pub news: usize,
    pub next: usize,
}
