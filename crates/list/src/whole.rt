// Playing a whole list.
// `while`, since the place moves by what is read; world, store and place as `act` wants them, so that no world is copied for a command.
ghost use Rattle.std.specs.Prelude.{◌≡◌, ◌≤◌, length};
ghost use Rattle.refusals.specs.Refusals.{number_of};
ghost use Rattle.world.specs.Worlds.{zero_world};
ghost use Rattle.header.specs.Headers.{header_length, header_number, header_world};
ghost use Rattle.list.specs.Play.{play_list, ended};

use crate::ListPlayed;
use refusals::Reason;
use world::World;

// The commands after the header, from its fresh world on. 17 is not asked again of the world; `enter` asks it of the news, where it never arises.
fn play_commands(fresh: World, first: usize, store: &mut [u8], list: &[u8]) -> ListPlayed
    requires { (fresh ≡ header_world list.now) × (first ≡ header_length list.now) × (header_number list.now ≡ 0) × (20480 ≤ length store.old) }
    ensures played { ended result ≡ (play_list store.old list.now).played }
    ensures stored { store.new ≡ (play_list store.old list.now).store }
{
    let mut world = fresh;
    let mut at = first;
    let mut events = 0;
    while at < list.len() {
        let reading = command::read_command(list, at);
        let own = play::actor(reading, world.n);
        let site = world.sites[own];
        match act::act(reading, play::head_of(world), site, store, at) {
            Ok(change) => {
                change.put(&mut world, own);
                at = change.next;
                events += 1;
            }
            Err(refusal) => {
                return ListPlayed {
                    stop: Some(refusal.reason),
                    world,
                    events,
                    place: at,
                };
            }
        }
    }
    ListPlayed {
        stop: None,
        world,
        events,
        place: at,
    }
}

// Refused at its store, length or header: the world of zeros, no events, place 0, which is what C is handed.
fn refused_list(reason: Reason) -> ListPlayed
    ensures { ended result ≡ record { number = number_of reason; world = zero_world; events = 0; place = 0 } }
{
    ListPlayed {
        stop: Some(reason),
        world: World::zero(),
        events: 0,
        place: 0,
    }
}

// A whole list: any bytes, any length, any store.
pub fn play_list(store: &mut [u8], list: &[u8]) -> ListPlayed
    ensures played { ended result ≡ (play_list store.old list.now).played }
    ensures stored { store.new ≡ (play_list store.old list.now).store }
{
    if store.len() < World::STORE_BYTES {
        return refused_list(Reason::StoreTooShort);
    }
    match header::check_header(list) {
        Ok(sizes) => play_commands(
            World::fresh(sizes),
            header::header_length(list),
            store,
            list,
        ),
        Err(reason) => refused_list(reason),
    }
}
