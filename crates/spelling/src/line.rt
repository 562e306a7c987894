// No Display: see `text`. A header and a command have plain numbers, as a text or a list may hold them.
// A header and a command as a line. Spelling wants room for six digits a number: where the page may lack it, a line is spelled on a page of
// its own, and what is put on the other is then exactly the line.
ghost use Rattle.std.specs.Prelude.{◌≡◌, ◌++◌, ◌+◌, ◌<◌, ◌≤◌, length};
ghost use Rattle.text.specs.Text.{text, decimal};
ghost use Rattle.text.specs.Page.{HasRoom, Put};
ghost use Rattle.spelling.specs.Spelling.{header_line, command_line};
ghost use Rattle.spelling.specs.Ranges.{HeaderInRange, InRange};

use command::{Command, Delivery};
use header::Header;
use text::{Page, decimal_length};

fn spell_site(page: &mut Page, word: &[u8], site: usize)
    requires { (site < 256) × HasRoom page.old (length word.now + 7) }
    ensures put { Put page.old ((word.now ++ decimal site) ++ text "\n") page.new }
    ensures upper_bound { page.new.at ≤ page.old.at + length word.now + 7 }
{
    page.put_named(word, site);
    page.put_byte(b'\n');
}

fn spell_delivery(page: &mut Page, delivery: Delivery)
    requires { (delivery.row < 65536) × (delivery.site < 256) × HasRoom page.old 22 }
    ensures put { Put page.old (command_line (Command.Deliver delivery)) page.new }
    ensures upper_bound { page.new.at ≤ page.old.at + 22 }
{
    page.put_named(b"deliver ", delivery.row);
    page.put_named(b" ", delivery.site);
    page.put_byte(b'\n');
}

// A command's line put on a page that has room for the longest.
fn spell_command(page: &mut Page, command: Command)
    requires { InRange command × HasRoom page.old 22 }
    ensures put { Put page.old (command_line command) page.new }
    ensures upper_bound { page.new.at ≤ page.old.at + 22 }
{
    match command {
        Command::Start => page.put_word(b"start\n"),
        Command::Deliver(d) => spell_delivery(page, d),
        Command::Timeout(t) => spell_site(page, b"timeout ", t.site),
        Command::Crash(t) => spell_site(page, b"crash ", t.site),
        Command::Recover(t) => spell_site(page, b"recover ", t.site),
    }
}

// The length of a command's line: its words, and the digits of its numbers.
pub fn line_length(command: Command) -> usize
    requires { InRange command }
    ensures { (result ≡ length (command_line command)) × (result ≤ 22) }
{
    match command {
        Command::Start => 6,
        Command::Deliver(d) => 10 + decimal_length(d.row) + decimal_length(d.site),
        Command::Timeout(t) => 9 + decimal_length(t.site),
        Command::Crash(t) => 7 + decimal_length(t.site),
        Command::Recover(t) => 9 + decimal_length(t.site),
    }
}

// A command's line put on a page.
pub fn put_line(page: &mut Page, command: Command)
    requires { InRange command × HasRoom page.old (length (command_line command)) }
    ensures { Put page.old (command_line command) page.new }
{
    if 22 <= page.room() {
        return spell_command(page, command);
    }
    let mut line = [0u8; 22];
    let mut own = Page::new(&mut line);
    spell_command(&mut own, command);
    let n = own.at;
    page.put_word(&line[..n]);
}

fn spell_header(page: &mut Page, header: Header)
    requires { HeaderInRange header × HasRoom page.old 55 }
    ensures put { Put page.old (header_line header) page.new }
    ensures upper_bound { page.new.at ≤ page.old.at + 55 }
{
    let commit = header.commit;
    let abort = header.abort;
    page.put_named(b"sites ", header.n);
    page.put_named(b" commit ", commit.0);
    page.put_named(b" abort ", abort.0);
    page.put_named(b" willing ", header.willing);
    page.put_byte(b'\n');
}

// The length of the first line.
pub fn header_line_length(header: Header) -> usize
    requires { HeaderInRange header }
    ensures { (result ≡ length (header_line header)) × (result ≤ 55) }
{
    let mut line = [0u8; 55];
    let mut page = Page::new(&mut line);
    spell_header(&mut page, header);
    page.at
}

// The first line put on a page.
pub fn put_header_line(page: &mut Page, header: Header)
    requires { HeaderInRange header × HasRoom page.old (length (header_line header)) }
    ensures { Put page.old (header_line header) page.new }
{
    let mut line = [0u8; 55];
    let mut own = Page::new(&mut line);
    spell_header(&mut own, header);
    let n = own.at;
    page.put_word(&line[..n]);
}
