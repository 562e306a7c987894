// Plays a list from standard input and prints its report.
#![tactic(auto)]

mod show;

use std::io;
use world::World;

// One byte more than a list may have is read, so that a list that is too long is noticed.
fn main(rt: HostRuntime) -> io::Result<()> {
    let mut input = [0u8; World::LIST_BYTES + 1];
    let mut store = [0u8; World::STORE_BYTES];
    let mut text = [0u8; World::REPORT_BYTES];
    let n = reading::read_full(&mut rt.stdin(), &mut input)?;
    let played = list::play_list(&mut store, &input[..n]);
    let k = show::show(played, &mut text);
    rt.write_all(&text[..k])
}
