// A day: a list and its whole report, played at once and a command at a time.
use refusals::Reason;
use std::io;
use world::World;

// Where a play stands, and why it stopped, if it did.
#[derive(Clone, Copy)]
struct Standing {
    world: World,
    place: usize,
    stop: Option<Reason>,
}

// The report's text is the expected one.
fn reported(standing: Standing, events: usize, expected: &[u8]) -> bool {
    let size = expected.len();
    if World::REPORT_BYTES < size {
        return false;
    }
    let mut want = [0; World::REPORT_BYTES];
    want[..size].copy_from_slice(expected);
    let mut got = [0; World::REPORT_BYTES];
    let number = standing.stop.map_or(0, |reason| u8::from(reason));
    let written = report::write_report(standing.world, events, number, standing.place, &mut got);
    written == Ok(size) && got == want
}

// The world of a list's header.
fn begun(list: &[u8]) -> Standing {
    let header = header::read_header(list);
    let sizes = header.sizes(header::read_weights(list, header.n));
    Standing {
        world: World::fresh(sizes),
        place: header::header_length(list),
        stop: None,
    }
}

// The next command, where one is left and none was refused.
fn next(standing: Standing, store: &mut [u8], list: &[u8]) -> Standing {
    if standing.stop.is_some() || list.len() <= standing.place {
        return standing;
    }
    match perform::one_command(standing.world, store, list, standing.place) {
        Ok(played) => Standing {
            world: played.world,
            place: played.place,
            stop: None,
        },
        Err(refusal) => Standing {
            stop: Some(refusal.reason),
            place: refusal.place,
            ..standing
        },
    }
}

// A command at a time, sixteen of them at most.
fn stepped(store: &mut [u8], list: &[u8]) -> Standing {
    let mut standing = begun(list);
    for _ in 0..16 {
        standing = next(standing, store, list);
    }
    standing
}

// The name, and ok or how the day differs.
pub fn day(rt: &impl Print, name: &[u8], list: &[u8], expected: &[u8]) -> io::Result<()> {
    let mut store = [0; World::STORE_BYTES];
    let whole = list::play_list(&mut store, list);
    let end = Standing {
        world: whole.world,
        place: whole.place,
        stop: whole.stop,
    };
    rt.write_all(name)?;
    if !reported(end, whole.events, expected) {
        return rt.write_all(b" differs\n");
    }
    if !reported(stepped(&mut store, list), whole.events, expected) {
        return rt.write_all(b" differs a command at a time\n");
    }
    rt.write_all(b" ok\n")
}
