// The site rules: their definition and the steps that they give. `timeouts` and `deliveries` have parts of them, and `participant` the rules as methods.
// own and n are plain numbers, see `participant`; own, n and site stand apart, since a message is of the site as it was just written:
// a `Participant` would be put together anew at each call.
#![tactic(auto)]

mod kept;
mod restart;
mod send;

pub use kept::kept_vector;
pub use restart::restarted;
use row::Message;
pub use send::{commanding, replying, silent};
use site::Site;

// What a rule hands back: the next site, the message it sends if any, and how many entries its merge raised.
#[derive(Clone, Copy)]
pub struct Step {
    pub site: Site,
    pub sent: Option<Message>,
    pub news: usize,
}
