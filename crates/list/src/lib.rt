// A whole list: header, then commands to its end or the first refusal.
#![tactic(auto)]

mod whole;

use refusals::Reason;
pub use whole::play_list;
use world::World;

// What playing a list hands back beside the store: why it stopped before its end, if it did; world, accepted events, place.
#[derive(Clone, Copy)]
pub struct ListPlayed {
    pub stop: Option<Reason>,
    pub world: World,
    pub events: usize,
    pub place: usize,
}
