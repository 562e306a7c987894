// What is new in the log after a rule's step.
// Two enums with a None of their own (document 01), so two matches.
ghost use Rattle.std.specs.Prelude.{◌≡◌};
ghost use Rattle.member.specs.Claims.{new_group, new_outcome, new_log};

use member::Logged;
use site::{Group, Outcome, Site};

#[tactic(auto, unfolding(member::specs::Claims::new_group))]
fn new_group(before: Group, after: Group) -> Group
    ensures { result ≡ new_group before after }
{
    match before {
        Group::None => after,
        Group::Commit | Group::Abort => Group::None,
    }
}

#[tactic(auto, unfolding(member::specs::Claims::new_outcome))]
fn new_outcome(before: Outcome, after: Outcome) -> Outcome
    ensures { result ≡ new_outcome before after }
{
    match before {
        Outcome::None => after,
        Outcome::Commit | Outcome::Abort => Outcome::None,
    }
}

// The places of the log that were none before.
#[tactic(auto, unfolding(member::specs::Claims::new_log))]
pub fn new_log(before: Site, after: Site) -> Logged
    ensures { result ≡ new_log before after }
{
    Logged {
        prepare: !before.prepared && after.prepared,
        group: new_group(before.group, after.group),
        outcome: new_outcome(before.outcome, after.outcome),
    }
}
