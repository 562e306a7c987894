// One command, read and performed.
// On a copy of the world: a whole list changes it in place, and a call of C writes one site of it. What they share is `act`.
#![tactic(auto)]

ghost use Rattle.std.specs.Prelude.{◌≡◌};
ghost use Rattle.play.specs.Calls.{played_of, told};
ghost use Rattle.play.specs.laws.Changes.{Ready, head_of};
ghost use Rattle.play.specs.Commands.{play_command, one_command};

use play::{Played, actor, head_of};
use refusals::{Reason, Refusal};
use world::World;

// The command at a place of the list, in a world that 17 need not be asked of.
fn play_command(world: World, store: &mut [u8], list: &[u8], at: usize) -> Result<Played, Refusal>
    requires { Ready (head_of world) store.old }
    ensures played { told world result ≡ played_of (play_command world store.old list.now at) }
    ensures stored { store.new ≡ (play_command world store.old list.now at).store }
{
    let reading = command::read_command(list, at);
    let own = actor(reading, world.n);
    let change = act::act(reading, head_of(world), world.site(own), store, at)?;
    let mut next = world;
    change.put(&mut next, own);
    Ok(Played {
        world: next,
        place: change.next,
    })
}

// One command on any world, any store, any list, any place. A refused one leaves the store.
pub fn one_command(
    world: World,
    store: &mut [u8],
    list: &[u8],
    at: usize,
) -> Result<Played, Refusal>
    ensures played { told world result ≡ played_of (one_command world store.old list.now at) }
    ensures stored { store.new ≡ (one_command world store.old list.now at).store }
{
    if store.len() < World::STORE_BYTES {
        return Err(Reason::StoreTooShort.at(at));
    }
    if !validity::valid_world(world) {
        return Err(Reason::InvalidWorld.at(at));
    }
    play_command(world, store, list, at)
}
