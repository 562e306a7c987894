// One site's step.
ghost use Rattle.std.specs.Prelude.{◌≡◌, ◌<◌, ◌≤◌, Ok};
ghost use Rattle.participant.specs.Turns.{turned, moved};
ghost use Rattle.member.specs.Orders.{read_order};
ghost use Rattle.member.specs.Steps.{step_by, site_step, taken_of, handed};
ghost use Rattle.member_step.specs.Turns.{turn_by};

use crate::logs::new_log;
use crate::orders::read_order;
use crate::valid::valid_member;
use member::{Member, Order, Taken};
use participant::Participant;
use refusals::Reason;
use rules::Step;
use site::Site;

// What the order that these bytes are makes the member do; a delivery's row follows in them.
#[tactic(auto, using(crate::specs::laws::OrderLaws::rooms), unfolding(crate::specs::Turns::turn_by, member::specs::Orders::row_in))]
fn turn(order: Order, member: Member, site: Site, bytes: &[u8]) -> Result<Step, Reason>
    requires { (member.own < member.n) × (member.n ≤ 16) × (read_order bytes.now ≡ Ok order) }
    ensures { turned result ≡ moved (turn_by order bytes.now member site) }
{
    let own = member.own;
    let n = member.n;
    let participant = Participant { own, n, site };
    match order {
        Order::Start => participant.try_start(member.willing),
        Order::Deliver => participant.try_deliver(member.willing, row::row_at(bytes, 1)),
        Order::Timeout => {
            let weights = member.weights;
            participant.try_timeout(weights, member.commit, member.abort)
        }
        Order::Crash => participant.try_crash(),
        Order::Recover => participant.try_recover(),
    }
}

fn perform(order: Order, member: Member, site: Site, bytes: &[u8]) -> Result<Taken, Reason>
    requires { (member.own < member.n) × (member.n ≤ 16) × (read_order bytes.now ≡ Ok order) }
    ensures { handed site result ≡ taken_of (step_by order bytes.now member site) }
{
    let step = turn(order, member, site, bytes)?;
    Ok(Taken {
        site: step.site,
        sent: step.sent,
        news: step.news,
        logged: new_log(site, step.site),
    })
}

// Any member, any site, any bytes.
#[tactic(auto, using(choice::specs::laws::ChoiceLaws::tests), unfolding(member::specs::Steps::site_step, member::specs::Steps::step_heard, member::specs::Steps::refuse, member::specs::Steps::taken_of, member::specs::Steps::logged))]
pub fn site_step(member: Member, site: Site, bytes: &[u8]) -> Result<Taken, Reason>
    ensures { handed site result ≡ taken_of (site_step member site bytes.now) }
{
    if !valid_member(member, site) {
        return Err(Reason::InvalidWorld);
    }
    let order = read_order(bytes)?;
    if member.n <= member.own {
        return Err(Reason::NoSuchSite);
    }
    perform(order, member, site, bytes)
}
