// The site that a command, or what was read, acts on.
ghost use Rattle.std.specs.Prelude.{◌≡◌, ◌<◌};
ghost use Rattle.play.specs.laws.Changes.{named_site, actor};

use command::{Command, Parsed};

// The site that a command names; START is for site 0.
#[tactic(auto, unfolding(crate::specs::laws::Changes::named_site))]
pub fn named_site(command: Command) -> usize
    ensures { result ≡ named_site command }
{
    match command {
        Command::Start => 0,
        Command::Deliver(delivery) => delivery.site,
        Command::Timeout(target) | Command::Crash(target) | Command::Recover(target) => target.site,
    }
}

// The site that what was read acts on, whatever it was refused with; 0 where it names none below n, for then nothing is changed, and a site is
// handed to `act` all the same.
#[tactic(auto, using(choice::specs::laws::ChoiceLaws::tests), unfolding(crate::specs::laws::Changes::actor))]
pub fn actor<E: Copy>(reading: Result<Parsed, E>, n: usize) -> usize
    requires { 0 < n }
    ensures { (result ≡ actor reading n) × (result < n) }
{
    match reading {
        Ok(parsed) if named_site(parsed.command) < n => named_site(parsed.command),
        _ => 0,
    }
}
