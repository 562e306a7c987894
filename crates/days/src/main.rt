// Plays the worked days of document 01, and days for the requests of document 02.
// One line for each case: its name, and ok or what came instead.
#![tactic(auto)]

mod day;
mod marked;
mod restarted;
mod tempted;
mod weighed;

use std::io;

fn main(rt: HostRuntime) -> io::Result<()> {
    marked::cases(&rt)?;
    tempted::cases(&rt)?;
    restarted::cases(&rt)?;
    weighed::cases(&rt)
}
