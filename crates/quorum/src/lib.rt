// The calls offered to C, on byte slices and numbers; `quorum_c` exports them. docs/LAYOUT.md has the bytes; include/quorum.h says how to call.
// The form of each is that of its declaration there: buffers with a result, an answer as a number, a list with a place.
#![tactic(auto)]

ghost use Rattle.std.specs.Prelude.{◌≡◌};
ghost use Rattle.spelling.specs.WriteRead.{write_lines, read_lines};
ghost use Rattle.conversion.specs.Conversion.{convert};
ghost use Rattle.quiet.specs.QuietList.{write_quiet};
ghost use Rattle.line_calls.specs.LineCalls.{lines_call};
ghost use Rattle.calls.specs.Calls.{list_call, command_call, report_call};

use calls::RESULT_BYTES;
use refusals::Reason;
use world::World;

// A whole list.
pub fn qc_play_list(list: &[u8], store: &mut [u8], world: &mut [u8], res: &mut [u8]) -> u32
    ensures value { result ≡ (list_call list.now store.old world.old res.old).number }
    ensures store_after { store.new ≡ (list_call list.now store.old world.old res.old).store }
    ensures world_after { world.new ≡ (list_call list.now store.old world.old res.old).world }
    ensures res_after { res.new ≡ (list_call list.now store.old world.old res.old).result }
{
    crossing::list_call(list, store, world, res)
}

// One command.
pub fn qc_play_command(
    world: &mut [u8],
    store: &mut [u8],
    list: &[u8],
    at: usize,
    res: &mut [u8],
) -> u32
    ensures value { result ≡ (command_call world.old store.old list.now at res.old).number }
    ensures store_after { store.new ≡ (command_call world.old store.old list.now at res.old).store }
    ensures world_after { world.new ≡ (command_call world.old store.old list.now at res.old).world }
    ensures res_after { res.new ≡ (command_call world.old store.old list.now at res.old).result }
{
    if store.len() < World::STORE_BYTES {
        return u32::from(Reason::StoreTooShort);
    }
    if res.len() != RESULT_BYTES {
        return u32::from(Reason::InvalidWorld);
    }
    if !inside::in_layout(world) {
        return u32::from(Reason::InvalidWorld);
    }
    if !decode::valid_at(world) {
        return u32::from(Reason::InvalidWorld);
    }
    calls::play_at(world, store, list, at, res)
}

// The report.
pub fn qc_report(
    world: &[u8],
    events: usize,
    number: u32,
    place: usize,
    buffer: &mut [u8],
    res: &mut [u8],
) -> u32
    ensures value { result ≡ (report_call world.now events number place buffer.old res.old).number }
    ensures buffer_after { buffer.new ≡ (report_call world.now events number place buffer.old res.old).buffer }
    ensures res_after { res.new ≡ (report_call world.now events number place buffer.old res.old).result }
{
    crossing::report_call(world, events, number, place, buffer, res)
}

// A list as lines.
pub fn qc_write_lines(list: &[u8], buffer: &mut [u8], res: &mut [u8]) -> u32
    ensures value { result ≡ (lines_call (write_lines list.now) buffer.old res.old).number }
    ensures buffer_after { buffer.new ≡ (lines_call (write_lines list.now) buffer.old res.old).buffer }
    ensures res_after { res.new ≡ (lines_call (write_lines list.now) buffer.old res.old).result }
{
    line_calls::write_call(list, buffer, res)
}

// Lines as a list.
pub fn qc_read_lines(text: &[u8], buffer: &mut [u8], res: &mut [u8]) -> u32
    ensures value { result ≡ (lines_call (read_lines text.now) buffer.old res.old).number }
    ensures buffer_after { buffer.new ≡ (lines_call (read_lines text.now) buffer.old res.old).buffer }
    ensures res_after { res.new ≡ (lines_call (read_lines text.now) buffer.old res.old).result }
{
    line_calls::read_call(text, buffer, res)
}

// A list in the other edition.
pub fn qc_convert(list: &[u8], buffer: &mut [u8], res: &mut [u8]) -> u32
    ensures value { result ≡ (lines_call (convert list.now) buffer.old res.old).number }
    ensures buffer_after { buffer.new ≡ (lines_call (convert list.now) buffer.old res.old).buffer }
    ensures res_after { res.new ≡ (lines_call (convert list.now) buffer.old res.old).result }
{
    line_calls::convert_call(list, buffer, res)
}

// The list of a quiet day.
pub fn qc_write_quiet(
    n: usize,
    commit: usize,
    abort: usize,
    buffer: &mut [u8],
    res: &mut [u8],
) -> u32
    ensures value { result ≡ (lines_call (write_quiet n (record { 0 = commit }) (record { 0 = abort })) buffer.old res.old).number }
    ensures buffer_after { buffer.new ≡ (lines_call (write_quiet n (record { 0 = commit }) (record { 0 = abort })) buffer.old res.old).buffer }
    ensures res_after { res.new ≡ (lines_call (write_quiet n (record { 0 = commit }) (record { 0 = abort })) buffer.old res.old).result }
{
    line_calls::quiet_call(n, commit, abort, buffer, res)
}
