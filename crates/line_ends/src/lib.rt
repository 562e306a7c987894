// The ends of lines: what follows a command's word, up to the line feed.
// Each is handed the place where the line began, since that is the place of its refusal.
#![tactic(auto)]

ghost use Rattle.std.specs.Prelude.{◌≡◌, ◌≤◌, length};
ghost use Rattle.scan.specs.Scan.{number_at};
ghost use Rattle.spelling.specs.LineReading.{end_line, site_end, row_end};
ghost use Rattle.spelling.specs.laws.Makers.{Makes};

use command::{Command, Delivery, Parsed, Target};
use refusals::{Reason, Refusal};
use scan::{read_named, read_number, word_at};

// The line feed after a line's last number, of a line that began at a place.
fn end_line(text: &[u8], begin: usize, command: Command, next: usize) -> Result<Parsed, Refusal>
    requires { next ≤ length text.now }
    ensures { result ≡ end_line text.now begin command next }
{
    if word_at(text, next, b"\n") {
        return Ok(Parsed {
            command,
            next: next + 1,
        });
    }
    Err(Reason::BadLine.at(begin))
}

// The rest of a line that ends with a site number, and what command it makes.
pub fn site_end<F: FnOnce(Target) -> Command>(
    text: &[u8],
    begin: usize,
    command: F,
    from: usize,
) -> Result<Parsed, Refusal>
    requires { F.IsAlwaysCallable command }
    ensures { (make : Target → Command) → Makes (F.post command) make → result ≡ site_end make text.now begin (number_at 255 text.now from) }
{
    let Some(number) = read_number(text, from, 255) else {
        return Err(Reason::BadLine.at(begin));
    };
    let site = Target { site: number.value };
    end_line(text, begin, command(site), number.next)
}

// The rest of a line with a row number and then a site number.
pub fn row_end(text: &[u8], begin: usize, from: usize) -> Result<Parsed, Refusal>
    ensures { result ≡ row_end text.now begin (number_at 65535 text.now from) }
{
    let Some(k) = read_number(text, from, 65535) else {
        return Err(Reason::BadLine.at(begin));
    };
    let Some(i) = read_named(text, k.next, b" ", 255) else {
        return Err(Reason::BadLine.at(begin));
    };
    let delivery = Delivery {
        site: i.value,
        row: k.value,
    };
    end_line(text, begin, Command::Deliver(delivery), i.next)
}
