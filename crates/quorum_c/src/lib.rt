// The archive for C, libquorum.a: each export calls the function of `quorum` of its name, and promises what it promises. include/quorum.h says how to call.
// An archive exports functions of its own, and nothing else is in it.
#![tactic(auto)]

ghost use Rattle.std.specs.Prelude.{◌≡◌};
ghost use Rattle.spelling.specs.WriteRead.{write_lines, read_lines};
ghost use Rattle.conversion.specs.Conversion.{convert};
ghost use Rattle.quiet.specs.QuietList.{write_quiet};
ghost use Rattle.line_calls.specs.LineCalls.{lines_call};
ghost use Rattle.calls.specs.Calls.{list_call, command_call, report_call};

// A whole list.
#[unsafe(no_mangle)]
pub extern "C" fn qc_play_list(
    list: &[u8],
    store: &mut [u8],
    world: &mut [u8],
    res: &mut [u8],
) -> u32
    ensures value { result ≡ (list_call list.now store.old world.old res.old).number }
    ensures store_after { store.new ≡ (list_call list.now store.old world.old res.old).store }
    ensures world_after { world.new ≡ (list_call list.now store.old world.old res.old).world }
    ensures res_after { res.new ≡ (list_call list.now store.old world.old res.old).result }
{
    quorum::qc_play_list(list, store, world, res)
}

// One command.
#[unsafe(no_mangle)]
pub extern "C" fn qc_play_command(
    world: &mut [u8],
    store: &mut [u8],
    list: &[u8],
    at: usize,
    res: &mut [u8],
) -> u32
    ensures value { result ≡ (command_call world.old store.old list.now at res.old).number }
    ensures store_after { store.new ≡ (command_call world.old store.old list.now at res.old).store }
    ensures world_after { world.new ≡ (command_call world.old store.old list.now at res.old).world }
    ensures res_after { res.new ≡ (command_call world.old store.old list.now at res.old).result }
{
    quorum::qc_play_command(world, store, list, at, res)
}

// The report.
#[unsafe(no_mangle)]
pub extern "C" fn qc_report(
    world: &[u8],
    events: usize,
    number: u32,
    place: usize,
    buffer: &mut [u8],
    res: &mut [u8],
) -> u32
    ensures value { result ≡ (report_call world.now events number place buffer.old res.old).number }
    ensures buffer_after { buffer.new ≡ (report_call world.now events number place buffer.old res.old).buffer }
    ensures res_after { res.new ≡ (report_call world.now events number place buffer.old res.old).result }
{
    quorum::qc_report(world, events, number, place, buffer, res)
}

// A list as lines.
#[unsafe(no_mangle)]
pub extern "C" fn qc_write_lines(list: &[u8], buffer: &mut [u8], res: &mut [u8]) -> u32
    ensures value { result ≡ (lines_call (write_lines list.now) buffer.old res.old).number }
    ensures buffer_after { buffer.new ≡ (lines_call (write_lines list.now) buffer.old res.old).buffer }
    ensures res_after { res.new ≡ (lines_call (write_lines list.now) buffer.old res.old).result }
{
    quorum::qc_write_lines(list, buffer, res)
}

// Lines as a list.
#[unsafe(no_mangle)]
pub extern "C" fn qc_read_lines(text: &[u8], buffer: &mut [u8], res: &mut [u8]) -> u32
    ensures value { result ≡ (lines_call (read_lines text.now) buffer.old res.old).number }
    ensures buffer_after { buffer.new ≡ (lines_call (read_lines text.now) buffer.old res.old).buffer }
    ensures res_after { res.new ≡ (lines_call (read_lines text.now) buffer.old res.old).result }
{
    quorum::qc_read_lines(text, buffer, res)
}

// A list in the other edition.
#[unsafe(no_mangle)]
pub extern "C" fn qc_convert(list: &[u8], buffer: &mut [u8], res: &mut [u8]) -> u32
    ensures value { result ≡ (lines_call (convert list.now) buffer.old res.old).number }
    ensures buffer_after { buffer.new ≡ (lines_call (convert list.now) buffer.old res.old).buffer }
    ensures res_after { res.new ≡ (lines_call (convert list.now) buffer.old res.old).result }
{
    quorum::qc_convert(list, buffer, res)
}

// The list of a quiet day.
#[unsafe(no_mangle)]
pub extern "C" fn qc_write_quiet(
    n: usize,
    commit: usize,
    abort: usize,
    buffer: &mut [u8],
    res: &mut [u8],
) -> u32
    ensures value { result ≡ (lines_call (write_quiet n (record { 0 = commit }) (record { 0 = abort })) buffer.old res.old).number }
    ensures buffer_after { buffer.new ≡ (lines_call (write_quiet n (record { 0 = commit }) (record { 0 = abort })) buffer.old res.old).buffer }
    ensures res_after { res.new ≡ (lines_call (write_quiet n (record { 0 = commit }) (record { 0 = abort })) buffer.old res.old).result }
{
    quorum::qc_write_quiet(n, commit, abort, buffer, res)
}
