// What was read, acted out on the one site that it names.
ghost use Rattle.std.specs.Prelude.{◌≡◌, ℕ, ◌<◌};
ghost use Rattle.participant.specs.Turns.{turned, moved};
ghost use Rattle.play.specs.laws.Changes.{Ready, Acts, ActsRead, named_site, entry_of};
ghost use Rattle.play.specs.Commands.{perform};
ghost use Rattle.act.specs.Turns.{delivery_turn, turn_of};

use command::{Command, Delivery, Parsed};
use participant::Participant;
use play::{Change, Head, enter, named_site};
use refusals::{Reason, Refusal};
use rules::Step;
use site::Site;

#[tactic(auto, using(choice::specs::laws::ChoiceLaws::tests), unfolding(crate::specs::Turns::delivery_turn))]
fn deliver(delivery: Delivery, head: Head, store: &[u8], site: Site) -> Result<Step, Reason>
    requires { Ready head store.now × (delivery.site < head.sizes.n) }
    ensures { turned result ≡ moved (delivery_turn delivery head store.now site) }
{
    if head.rows <= delivery.row {
        return Err(Reason::NoSuchRow);
    }
    let own = delivery.site;
    let willing = bits::has_bit(head.sizes.willing, own);
    let n = head.sizes.n;
    Participant { own, n, site }.try_deliver(willing, row::get_row(store, delivery.row))
}

// What the command makes its site do.
#[tactic(auto, unfolding(crate::specs::Turns::turn_of, play::specs::laws::Changes::named_site))]
fn turn(command: Command, head: Head, store: &[u8], site: Site) -> Result<Step, Reason>
    requires { Ready head store.now × (named_site command < head.sizes.n) }
    ensures { turned result ≡ moved (turn_of command head store.now site) }
{
    let own = named_site(command);
    let n = head.sizes.n;
    let participant = Participant { own, n, site };
    match command {
        Command::Start => participant.try_start(bits::has_bit(head.sizes.willing, 0)),
        Command::Deliver(delivery) => deliver(delivery, head, store, site),
        Command::Timeout(_) => {
            let weights = head.sizes.weights;
            participant.try_timeout(weights, head.sizes.commit, head.sizes.abort)
        }
        Command::Crash(_) => participant.try_crash(),
        Command::Recover(_) => participant.try_recover(),
    }
}

// In line with `act`, so that a command alone is not slower.
#[inline(always)]
fn perform(
    command: Command,
    head: Head,
    store: &mut [u8],
    next: usize,
    site: Site,
) -> Result<Change, Reason>
    requires { Ready head store.old × (named_site command < head.sizes.n) }
    ensures { (at : ℕ) → Acts head (named_site command) site (entry_of head at site result) store.new (λ w. perform command w store.old at next) }
{
    let step = turn(command, head, store, site)?;
    enter(head, store, next, step)
}

// What was read at a place, in a world that 17 need not be asked of, with the site that it acts on. What it was refused with is the caller's, and
// is handed on as it is.
// In line, so that the changed site goes straight to where the caller has it.
#[inline(always)]
pub fn act<E: From<Refusal> + Copy>(
    reading: Result<Parsed, E>,
    head: Head,
    site: Site,
    store: &mut [u8],
    at: usize,
) -> Result<Change, E>
    requires { Ready head store.old }
    ensures { ActsRead E.from_gives reading at head site result store.old store.new }
{
    let Ok(parsed) = reading else {
        return Err(reading.unwrap_err());
    };
    if head.sizes.n <= named_site(parsed.command) {
        return Err(E::from(Reason::NoSuchSite.at(at)));
    }
    match perform(parsed.command, head, store, parsed.next, site) {
        Ok(change) => Ok(change),
        Err(reason) => Err(E::from(reason.at(at))),
    }
}
