// TIMEOUT in each state but active.
// Codes go with `vector::count`, `join_group` and `write_outcome`, which take any; own and n are plain numbers, see `participant`.
#![tactic(auto)]

ghost use Rattle.std.specs.Prelude.{◌≡◌, [], ◌<◌, ◌≤◌};
ghost use Rattle.choice.specs.Choice.{pick};
ghost use Rattle.row.specs.Messages.{kind_number};
ghost use Rattle.site.specs.Fields.{with_outcome};
ghost use Rattle.site.specs.Records.{with_own};
ghost use Rattle.rules.specs.Rules.{commanding, take_over, choose_group, decide_commit, decide_abort};
ghost use Rattle.rules.specs.Steps.{stepped};

use row::Kind;
use rules::{Step, commanding};
use site::{AbortQuorum, CommitQuorum, Group, Outcome, Site};

// Become coordinator and send the command of the state.
#[tactic(auto, unfolding(rules::specs::Rules::take_over, rules::specs::Rules::commanding, rules::specs::Rules::command_row, site::specs::Fields::with_coordinator))]
pub fn take_over(kind: Kind, own: usize, n: usize, mut site: Site) -> Step
    requires { (n ≤ 16) × (own < n) }
    ensures { stepped result ≡ (take_over (kind_number kind) own n site).step }
{
    site.coordinator = true;
    commanding(kind, own, n, site)
}

#[tactic(auto, using(choice::specs::laws::ChoiceLaws::tests), unfolding(rules::specs::Rules::choose_group, rules::specs::Rules::commanding, site::specs::Records::join_group, site::specs::Records::group_of, site::specs::Records::record_code))]
pub fn timeout_prepared(own: usize, n: usize, site: Site) -> Step
    requires { (n ≤ 16) × (own < n) }
    ensures { stepped result ≡ (pick site.coordinator (choose_group own n site) (take_over 1 own n site)).step }
{
    if !site.coordinator {
        return take_over(Kind::Prepare, own, n, site);
    }
    let codes = site.codes;
    if vector::count(n, codes, 1) == n || 0 < vector::count(n, codes, 2) {
        return commanding(
            Kind::JoinCommit,
            own,
            n,
            site.join_group(own, Group::Commit, 2),
        );
    }
    commanding(
        Kind::JoinAbort,
        own,
        n,
        site.join_group(own, Group::Abort, 3),
    )
}

// In a group: its coordinator writes the outcome where the quorum is reached, and else sends the join again.
#[tactic(auto, unfolding(rules::specs::Rules::commanding))]
fn timeout_in_group(
    join: Kind,
    reached: bool,
    outcome: Outcome,
    code: u8,
    own: usize,
    n: usize,
    site: Site,
) -> Step
    requires { (n ≤ 16) × (own < n) }
    ensures { stepped result ≡ (pick site.coordinator
        (pick reached (commanding 6 own n (with_outcome outcome (with_own own code site)) []) (commanding (kind_number join) own n site []))
        (take_over (kind_number join) own n site)).step }
{
    if !site.coordinator {
        return take_over(join, own, n, site);
    }
    if reached {
        return commanding(
            Kind::Outcome,
            own,
            n,
            site.write_outcome(own, outcome, code),
        );
    }
    commanding(join, own, n, site)
}

#[tactic(auto, unfolding(rules::specs::Rules::decide_commit, rules::specs::Rules::commanding, site::specs::Records::write_outcome, site::specs::Records::outcome_of, site::specs::Records::record_code))]
pub fn timeout_in_commit_group(
    own: usize,
    n: usize,
    weights: [u8; 16],
    commit: CommitQuorum,
    site: Site,
) -> Step
    requires { (n ≤ 16) × (own < n) }
    ensures { stepped result ≡ (pick site.coordinator (decide_commit own n weights commit site) (take_over 3 own n site)).step }
{
    let codes = site.codes;
    let reached = site.coordinator && commit.reached(weights, n, codes);
    timeout_in_group(Kind::JoinCommit, reached, Outcome::Commit, 4, own, n, site)
}

#[tactic(auto, unfolding(rules::specs::Rules::decide_abort, rules::specs::Rules::commanding, site::specs::Records::write_outcome, site::specs::Records::outcome_of, site::specs::Records::record_code))]
pub fn timeout_in_abort_group(
    own: usize,
    n: usize,
    weights: [u8; 16],
    abort: AbortQuorum,
    site: Site,
) -> Step
    requires { (n ≤ 16) × (own < n) }
    ensures { stepped result ≡ (pick site.coordinator (decide_abort own n weights abort site) (take_over 4 own n site)).step }
{
    let codes = site.codes;
    let reached = site.coordinator && abort.reached(weights, n, codes);
    timeout_in_group(Kind::JoinAbort, reached, Outcome::Abort, 5, own, n, site)
}
