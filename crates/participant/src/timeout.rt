// TIMEOUT, by state: one match, since each state has a step of its own.
ghost use Rattle.std.specs.Prelude.{◌≡◌, ◌<◌, ◌≤◌};
ghost use Rattle.rules.specs.Rules.{timeout};
ghost use Rattle.rules.specs.Steps.{stepped};

use crate::Participant;
use row::Kind;
use rules::{Step, silent};
use site::{AbortQuorum, CommitQuorum, Outcome, State};
use timeouts::{take_over, timeout_in_abort_group, timeout_in_commit_group, timeout_prepared};

impl Participant {
    #[tactic(auto, unfolding(rules::specs::Rules::timeout, rules::specs::Rules::timeout_in, rules::specs::Rules::silent, site::specs::Records::write_outcome, site::specs::Records::outcome_of, site::specs::Records::record_code))]
    pub fn timeout(mut self, weights: [u8; 16], commit: CommitQuorum, abort: AbortQuorum) -> Step
        requires { (self.n ≤ 16) × (self.own < self.n) }
        ensures { stepped result ≡ (timeout self.own self.n weights commit abort self.site).step }
    {
        let Participant { own, n, site } = self;
        match site.state() {
            State::Active => silent(site.write_outcome(own, Outcome::Abort, 5)),
            State::Prepared => timeout_prepared(own, n, site),
            State::CommitGroup => timeout_in_commit_group(own, n, weights, commit, site),
            State::AbortGroup => timeout_in_abort_group(own, n, weights, abort, site),
            State::Committed | State::Aborted => take_over(Kind::Outcome, own, n, site),
        }
    }
}
