// A whole list and the report as C calls them.
// C takes an answer as a number, and hands in a stop as one. Its buffers are slices of any length.
#![tactic(auto)]

ghost use Rattle.std.specs.Prelude.{◌≡◌};
ghost use Rattle.calls.specs.Calls.{list_call, report_call};

use calls::{RESULT_BYTES, unfit_number};
use refusals::Reason;

// A whole list.
#[tactic(auto, using(calls::specs::laws::CallLaws::list_unfit_world), unfolding(calls::specs::Calls::leave))]
pub fn list_call(list: &[u8], store: &mut [u8], world: &mut [u8], res: &mut [u8]) -> u32
    ensures value { result ≡ (list_call list.now store.old world.old res.old).number }
    ensures store_after { store.new ≡ (list_call list.now store.old world.old res.old).store }
    ensures world_after { world.new ≡ (list_call list.now store.old world.old res.old).world }
    ensures res_after { res.new ≡ (list_call list.now store.old world.old res.old).result }
{
    if world.len() != layout::WORLD_BYTES {
        return unfit_number(store.len());
    }
    if res.len() != RESULT_BYTES {
        return unfit_number(store.len());
    }
    let played = list::play_list(store, list);
    encode::put_world(world, played.world);
    encode::put_number(res, 0, 4, played.events);
    encode::put_number(res, 4, 4, played.place);
    match played.stop {
        Some(reason) => u32::from(reason),
        None => 0,
    }
}

// The report.
#[tactic(auto, using(calls::specs::laws::CallLaws::numbers), unfolding(calls::specs::Calls::leave_buffer))]
pub fn report_call(
    world: &[u8],
    events: usize,
    number: u32,
    place: usize,
    buffer: &mut [u8],
    res: &mut [u8],
) -> u32
    ensures value { result ≡ (report_call world.now events number place buffer.old res.old).number }
    ensures buffer_after { buffer.new ≡ (report_call world.now events number place buffer.old res.old).buffer }
    ensures res_after { res.new ≡ (report_call world.now events number place buffer.old res.old).result }
{
    if res.len() != RESULT_BYTES {
        return u32::from(Reason::InvalidWorld);
    }
    if !inside::in_layout(world) {
        return u32::from(Reason::InvalidWorld);
    }
    if report::LAST_NUMBER < number as usize {
        return u32::from(Reason::InvalidWorld);
    }
    let before = decode::world_at(world);
    match report::write_report(before, events, number as u8, place, buffer) {
        Ok(length) => {
            encode::put_number(res, 0, 8, length);
            0
        }
        Err(reason) => u32::from(reason),
    }
}
