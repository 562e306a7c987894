// A site's state and its code; the quorums.
ghost use Rattle.std.specs.Prelude.{◌≡◌, ◌≤◌, leb};
ghost use Rattle.weights.specs.Weights.{weight_of};
ghost use Rattle.vector.specs.Vector.{weigh};
ghost use Rattle.site.specs.State.{state_by, state_of, code_of, is_terminated, is_active, commit_reached, abort_reached};

use crate::{AbortQuorum, CommitQuorum, Group, Outcome, Site, State};

#[tactic(auto, unfolding(crate::specs::State::state_by))]
fn state_by(outcome: Outcome, group: Group, prepared: bool) -> State
    ensures { result ≡ state_by outcome group prepared }
{
    match outcome {
        Outcome::Commit => State::Committed,
        Outcome::Abort => State::Aborted,
        Outcome::None => match group {
            Group::Commit => State::CommitGroup,
            Group::Abort => State::AbortGroup,
            Group::None => {
                if prepared {
                    State::Prepared
                } else {
                    State::Active
                }
            }
        },
    }
}

impl Site {
    // Its outcome if it has one, else its group, else prepared, else active.
    #[tactic(auto, unfolding(crate::specs::State::state_of))]
    pub fn state(self) -> State
        ensures { result ≡ state_of self }
    {
        let outcome = self.outcome;
        let group = self.group;
        state_by(outcome, group, self.prepared)
    }
}

impl State {
    #[tactic(auto, unfolding(crate::specs::State::is_active))]
    pub fn is_active(self) -> bool
        ensures { result ≡ is_active self }
    {
        self == State::Active
    }

    #[tactic(auto, unfolding(crate::specs::State::is_terminated))]
    pub fn is_terminated(self) -> bool
        ensures { result ≡ is_terminated self }
    {
        matches!(self, State::Committed | State::Aborted)
    }
}

// Whether the entries below n that show the state weigh at least the size.
#[tactic(auto, unfolding(crate::specs::State::code_of))]
fn reached(size: usize, state: State, weights: [u8; 16], n: usize, codes: [u8; 16]) -> bool
    requires { n ≤ 16 }
    ensures { result ≡ leb size (weigh (weight_of weights) n codes (code_of state)) }
{
    size <= vector::weigh(n, weights, codes, u8::from(state))
}

impl CommitQuorum {
    #[tactic(auto, unfolding(crate::specs::State::commit_reached, crate::specs::State::code_of))]
    pub fn reached(self, weights: [u8; 16], n: usize, codes: [u8; 16]) -> bool
        requires { n ≤ 16 }
        ensures { result ≡ commit_reached self weights n codes }
    {
        reached(self.0, State::CommitGroup, weights, n, codes)
    }
}

impl AbortQuorum {
    #[tactic(auto, unfolding(crate::specs::State::abort_reached, crate::specs::State::code_of))]
    pub fn reached(self, weights: [u8; 16], n: usize, codes: [u8; 16]) -> bool
        requires { n ≤ 16 }
        ensures { result ≡ abort_reached self weights n codes }
    {
        reached(self.0, State::AbortGroup, weights, n, codes)
    }
}
