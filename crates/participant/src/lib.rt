// The site rules: START, TIMEOUT, DELIVER, CRASH and RECOVER, as methods of a participant; each also with its conditions.
// own and n are plain numbers with clauses: docs/TRUST.md names the methods, and a narrower type would ask more of who calls them.
// So are the codes that go with `write_outcome`, which takes any.
#![tactic(auto)]

mod crash;
mod deliver;
mod start;
mod timeout;
mod turns;

use site::Site;

// A site with its number, among n sites.
#[derive(Clone, Copy)]
pub struct Participant {
    pub own: usize,
    pub n: usize,
    pub site: Site,
}
