// Reading the lines of a list: the first line, and a command's.
// Five words of five lengths, each with an end of its own: a table of them would hold functions. No `parse`: see `scan`.
#![tactic(auto)]

ghost use Rattle.std.specs.Prelude.{◌≡◌, ◌≤◌, length};
ghost use Rattle.spelling.specs.LineReading.{read_line, read_header_line};

use command::{Command, Parsed};
use header::Header;
use line_ends::{row_end, site_end};
use refusals::{Reason, Refusal};
use scan::{read_named, word_at};
use site::{AbortQuorum, CommitQuorum};
use spelling::HeaderLine;

// A command's line.
pub fn read_line(text: &[u8], at: usize) -> Result<Parsed, Refusal>
    requires { at ≤ length text.now }
    ensures { result ≡ read_line text.now at }
{
    if word_at(text, at, b"start\n") {
        return Ok(Parsed {
            command: Command::Start,
            next: at + 6,
        });
    }
    if word_at(text, at, b"deliver ") {
        return row_end(text, at, at + 8);
    }
    if word_at(text, at, b"timeout ") {
        return site_end(text, at, Command::Timeout, at + 8);
    }
    if word_at(text, at, b"crash ") {
        return site_end(text, at, Command::Crash, at + 6);
    }
    if word_at(text, at, b"recover ") {
        return site_end(text, at, Command::Recover, at + 8);
    }
    Err(Reason::BadLine.at(at))
}

// The first line.
pub fn read_header_line(text: &[u8]) -> Option<HeaderLine>
    ensures { result ≡ read_header_line text.now }
{
    let n = read_named(text, 0, b"sites ", 255)?;
    let c = read_named(text, n.next, b" commit ", 255)?;
    let a = read_named(text, c.next, b" abort ", 255)?;
    let w = read_named(text, a.next, b" willing ", 65535)?;
    if !word_at(text, w.next, b"\n") {
        return None;
    }
    let header = Header {
        n: n.value,
        commit: CommitQuorum(c.value),
        abort: AbortQuorum(a.value),
        willing: w.value,
    };
    Some(HeaderLine {
        header,
        next: w.next + 1,
    })
}
