// DELIVER, after the merge: an outcome adopted, the answer by kind.
// Each answer is one match of the states that move. The codes go with `write_outcome` and `join_group`, which take any.
#![tactic(auto)]

mod join_commit;

ghost use Rattle.std.specs.Prelude.{◌≡◌, List, ◌<◌, ◌≤◌};
ghost use Rattle.site.specs.State.{state_of};
ghost use Rattle.site.specs.Records.{Written};
ghost use Rattle.rules.specs.Rules.{adopt_code, adopt, vote_in, join_abort_in, answer, bringing};
ghost use Rattle.rules.specs.Steps.{stepped};

use join_commit::on_join_commit;
use row::Kind;
use rules::{Step, replying};
use site::{Group, Outcome, Site, State};

// The outcome of a code 4 or 5, written; any other code writes nothing.
#[tactic(auto, using(choice::specs::laws::ChoiceLaws::tests), unfolding(rules::specs::Rules::adopt_code, site::specs::Records::write_outcome, site::specs::Records::outcome_of, site::specs::Records::record_code))]
fn adopt_code(code: u8, own: usize, site: Site) -> Site
    requires { own < 16 }
    ensures { result ≡ (adopt_code code own site).site }
{
    match code {
        4 => site.write_outcome(own, Outcome::Commit, 4),
        5 => site.write_outcome(own, Outcome::Abort, 5),
        _ => site,
    }
}

// The outcome that the lowest site shows, written if the site is not terminated.
#[tactic(auto, unfolding(rules::specs::Rules::adopt))]
pub fn adopt(own: usize, n: usize, site: Site) -> Site
    requires { (n ≤ 16) × (own < n) }
    ensures { result ≡ (adopt own n site).site }
{
    if site.state().is_terminated() {
        return site;
    }
    let codes = site.codes;
    adopt_code(vector::lowest_outcome(n, codes), own, site)
}

// Prepare, still active: willing writes P, unwilling writes abort.
#[tactic(auto, unfolding(rules::specs::Rules::vote_in, site::specs::Records::write_outcome, site::specs::Records::outcome_of, site::specs::Records::record_code))]
fn on_prepare(own: usize, willing: bool, site: Site) -> Site
    requires { own < 16 }
    ensures { result ≡ (vote_in (state_of site) own willing site).site }
{
    match site.state() {
        State::Active if willing => site.write_prepare(own),
        State::Active => site.write_outcome(own, Outcome::Abort, 5),
        _ => site,
    }
}

// An active site joins the abort group without P.
#[tactic(auto, unfolding(rules::specs::Rules::join_abort_in, site::specs::Records::join_group, site::specs::Records::group_of, site::specs::Records::record_code))]
fn on_join_abort(own: usize, site: Site) -> Site
    requires { own < 16 }
    ensures { result ≡ (join_abort_in (state_of site) own site).site }
{
    match site.state() {
        State::Active | State::Prepared => site.join_group(own, Group::Abort, 3),
        _ => site,
    }
}

// The kind is a byte, since a site is handed any row.
// By the row's kind, after a merge with so much news, whatever records it led to.
#[tactic(auto, using(choice::specs::laws::ChoiceLaws::tests), unfolding(rules::specs::Rules::answer, rules::specs::Rules::replying, rules::specs::Rules::after, rules::specs::Rules::silent, rules::specs::Rules::bringing))]
pub fn answer(kind: u8, own: usize, sender: usize, willing: bool, news: usize, site: Site) -> Step
    requires { (own < 16) × (sender < 16) }
    ensures { (earlier : List Written) → stepped result ≡ (bringing news (answer kind own sender willing (record { site = site; records = earlier }))).step }
{
    let (reply, site) = match Kind::try_from(kind) {
        Ok(Kind::Prepare) => (Kind::Vote, on_prepare(own, willing, site)),
        Ok(Kind::JoinCommit) => (Kind::InGroup, on_join_commit(own, site)),
        Ok(Kind::JoinAbort) => (Kind::InGroup, on_join_abort(own, site)),
        Ok(Kind::Outcome) => (Kind::OutcomeAck, site),
        _ => {
            return Step {
                site,
                sent: None,
                news,
            };
        }
    };
    replying(reply, own, sender, news, site)
}
