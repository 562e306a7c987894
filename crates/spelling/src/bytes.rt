// A header and a command as bytes of a list.
// The bytes that stand for commands in a list stand here. Numbers are cut to bytes where the clause says that they are bytes.
ghost use Rattle.std.specs.Prelude.{◌≡◌, [], ◌∷◌, ◌+◌, ◌/◌, ◌%◌, ◌<◌, ◌≤◌, length};
ghost use Rattle.text.specs.Page.{HasRoom, Put};
ghost use Rattle.spelling.specs.Spelling.{header_bytes, command_bytes};
ghost use Rattle.spelling.specs.Ranges.{HeaderInRange, InRange};

use command::{Command, Delivery};
use header::Header;
use text::Page;

// Sixteen bits, low byte first.
pub fn put_pair(page: &mut Page, x: usize)
    requires { (x < 65536) × HasRoom page.old 2 }
    ensures put { Put page.old (x % 256 ∷ x / 256 ∷ []) page.new }
    ensures upper_bound { page.new.at ≤ page.old.at + 2 }
{
    page.put_word(&(x as u16).to_le_bytes());
}

// A command byte and its site.
fn put_target(page: &mut Page, byte: u8, site: usize)
    requires { (site < 256) × HasRoom page.old 2 }
    ensures { Put page.old (byte ∷ site ∷ []) page.new }
{
    page.put_word(&[byte, site as u8]);
}

fn put_delivery(page: &mut Page, delivery: Delivery)
    requires { (delivery.row < 65536) × (delivery.site < 256) × HasRoom page.old 4 }
    ensures { Put page.old (command_bytes (Command.Deliver delivery)) page.new }
{
    page.put_byte(2);
    put_pair(page, delivery.row);
    page.put_byte(delivery.site as u8);
}

// How many bytes a command has.
#[tactic(auto, unfolding(crate::specs::Spelling::command_bytes))]
pub fn command_length(command: Command) -> usize
    ensures { (result ≡ length (command_bytes command)) × (result ≤ 4) }
{
    match command {
        Command::Start => 1,
        Command::Deliver(_) => 4,
        Command::Timeout(_) | Command::Crash(_) | Command::Recover(_) => 2,
    }
}

// A command's bytes put on a page.
pub fn put_command(page: &mut Page, command: Command)
    requires { InRange command × HasRoom page.old (length (command_bytes command)) }
    ensures { Put page.old (command_bytes command) page.new }
{
    match command {
        Command::Start => page.put_word(&[1]),
        Command::Deliver(d) => put_delivery(page, d),
        Command::Timeout(t) => put_target(page, 3, t.site),
        Command::Crash(t) => put_target(page, 4, t.site),
        Command::Recover(t) => put_target(page, 5, t.site),
    }
}

// A header's bytes put on a page.
pub fn put_header(page: &mut Page, header: Header)
    requires { HeaderInRange header × HasRoom page.old 5 }
    ensures { Put page.old (header_bytes header) page.new }
{
    let commit = header.commit;
    let abort = header.abort;
    page.put_word(&[header.n as u8, commit.0 as u8, abort.0 as u8]);
    put_pair(page, header.willing);
}
