// Sizes of a competition, and the first of their conditions that they break.
// Plain numbers, since any may be handed in to be asked; W and h are what `weights::measured` promises.
ghost use Rattle.std.specs.Prelude.{◌≡◌, ◌≤◌};
ghost use Rattle.refusals.specs.Refusals.{answer_number};
ghost use Rattle.world.specs.Sizes.{sites_fit, quorums_fit, sizes_number};

use crate::World;
use refusals::Reason;
use site::{AbortQuorum, CommitQuorum};

// The sizes, and the willing sites as bits.
#[derive(Clone, Copy)]
pub struct Sizes {
    pub n: usize,
    pub weights: [u8; World::SITES],
    pub commit: CommitQuorum,
    pub abort: AbortQuorum,
    pub willing: usize,
}

// n: 3 to 16.
#[tactic(auto, using(choice::specs::laws::ChoiceLaws::tests), unfolding(crate::specs::Sizes::sites_fit))]
pub fn sites_fit(n: usize) -> bool
    ensures { result ≡ sites_fit n }
{
    (3..=World::SITES).contains(&n)
}

// C and A each at most W - h, and together more than W.
#[tactic(auto, using(choice::specs::laws::ChoiceLaws::tests), unfolding(crate::specs::Sizes::quorums_fit))]
fn quorums_fit(total: usize, largest: usize, commit: CommitQuorum, abort: AbortQuorum) -> bool
    requires { (total ≤ 4080) × (largest ≤ total) }
    ensures { result ≡ quorums_fit total largest commit abort }
{
    let most = total - largest;
    commit.0 <= most && abort.0 <= most && total < commit.0 + abort.0
}

impl Sizes {
    // In this order: n; each weight; C and A; willing sites below n.
    pub fn check(self) -> Result<(), Reason>
        ensures { answer_number result ≡ sizes_number self.n self.weights self.commit self.abort self.willing }
    {
        if !sites_fit(self.n) {
            return Err(Reason::SiteCount);
        }
        let measures = weights::measured(self.n, self.weights);
        if !measures.valid {
            return Err(Reason::InvalidWeights);
        }
        if !quorums_fit(measures.total, measures.largest, self.commit, self.abort) {
            return Err(Reason::QuorumSizes);
        }
        if self.willing < bits::only_site(self.n) {
            return Ok(());
        }
        Err(Reason::WillingSites)
    }
}
