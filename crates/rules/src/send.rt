// The step that a site hands back: nothing sent, a command to all others, or a reply to one.
ghost use Rattle.std.specs.Prelude.{◌≡◌, [], ◌<◌, ◌≤◌};
ghost use Rattle.row.specs.Messages.{kind_number};
ghost use Rattle.rules.specs.Rules.{silent, commanding, replying, bringing};
ghost use Rattle.rules.specs.Steps.{stepped};

use crate::Step;
use row::{Kind, Message};
use site::Site;

#[tactic(auto, unfolding(crate::specs::Rules::silent))]
pub fn silent(site: Site) -> Step
    ensures { stepped result ≡ (silent site []).step }
{
    Step {
        site,
        sent: None,
        news: 0,
    }
}

#[tactic(auto, unfolding(crate::specs::Rules::commanding, crate::specs::Rules::command_row))]
pub fn commanding(kind: Kind, own: usize, n: usize, site: Site) -> Step
    requires { (n ≤ 16) × (own < n) }
    ensures { stepped result ≡ (commanding (kind_number kind) own n site []).step }
{
    sending(kind, own, bits::other_sites(n, own), 0, site)
}

// A delivery replies, so with the news of its merge.
#[tactic(auto, unfolding(crate::specs::Rules::replying, crate::specs::Rules::reply_row, crate::specs::Rules::bringing))]
pub fn replying(kind: Kind, own: usize, to: usize, news: usize, site: Site) -> Step
    requires { to < 16 }
    ensures { stepped result ≡ (bringing news (replying (kind_number kind) own to (record { site = site; records = [] }))).step }
{
    sending(kind, own, bits::only_site(to), news, site)
}

// The site's message to all the destinations.
fn sending(kind: Kind, own: usize, destinations: usize, news: usize, site: Site) -> Step
    ensures { stepped result ≡ record { site = site; row = record { kind = kind_number kind; sender = own; destinations = destinations; codes = site.codes }; news = news } }
{
    let codes = site.codes;
    Step {
        site,
        sent: Some(Message {
            kind,
            sender: own,
            destinations,
            codes,
        }),
        news,
    }
}
