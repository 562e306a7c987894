// A join commit answered: only a prepared site moves.
// The code goes with `join_group`, which takes any.
ghost use Rattle.std.specs.Prelude.{◌≡◌, ◌<◌};
ghost use Rattle.site.specs.State.{state_of};
ghost use Rattle.rules.specs.Rules.{join_commit_in};

use site::{Group, Site, State};

#[tactic(auto, unfolding(rules::specs::Rules::join_commit_in, site::specs::Records::join_group, site::specs::Records::group_of, site::specs::Records::record_code))]
pub fn on_join_commit(own: usize, site: Site) -> Site
    requires { own < 16 }
    ensures { result ≡ (join_commit_in (state_of site) own site).site }
{
    match site.state() {
        State::Prepared => site.join_group(own, Group::Commit, 2),
        _ => site,
    }
}
