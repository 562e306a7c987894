// Writing a list as lines.
// `while`, since the place moves by what is read.
#![tactic(auto)]

ghost use Rattle.std.specs.Prelude.{◌≡◌, ◌+◌, ◌≤◌, length};
ghost use Rattle.text.specs.Page.{HasRoom, Put};
ghost use Rattle.header.specs.Headers.{first_header, first_number};
ghost use Rattle.spelling.specs.Answers.{answer_of};
ghost use Rattle.spelling.specs.WriteRead.{list_script, lines_of, write_lines};
ghost use Rattle.write_lines.specs.laws.WriteLaws.{measured};

use header::Header;
use refusals::{Reason, Refusal};
use spelling::Spelled;
use text::Page;

// The length of the lines, or 6 or 7 with its place.
fn measure(header: Header, list: &[u8]) -> Result<Spelled, Refusal>
    requires { (header ≡ first_header list.now) × (first_number list.now ≡ 0) }
    ensures { answer_of result ≡ measured list.now }
{
    let mut length = spelling::header_line_length(header);
    let mut at = 5;
    while at < list.len() {
        let parsed = command::read_command(list, at)?;
        length += spelling::line_length(parsed.command);
        at = parsed.next;
    }
    Ok(Spelled {
        place: list.len(),
        length,
    })
}

// The lines of every command that can be read, put on a page.
fn put_lines(page: &mut Page, header: Header, list: &[u8])
    requires { (header ≡ first_header list.now) × HasRoom page.old (length (lines_of (first_header list.now) (list_script list.now).commands)) }
    ensures { Put page.old (lines_of (first_header list.now) (list_script list.now).commands) page.new }
{
    spelling::put_header_line(page, header);
    let mut at = 5;
    while at < list.len() {
        let Ok(parsed) = command::read_command(list, at) else {
            return;
        };
        spelling::put_line(page, parsed.command);
        at = parsed.next;
    }
}

// THE WRITER: list bytes to text, from the buffer's beginning; 1 to 7 and then 20, and the buffer untouched.
pub fn write_lines(list: &[u8], buffer: &mut [u8]) -> Result<Spelled, Refusal>
    ensures value { answer_of result ≡ (write_lines list.now buffer.old).answer }
    ensures buffer_after { buffer.new ≡ (write_lines list.now buffer.old).buffer }
    ensures length_in_bounds { ((answer_of result).length ≤ length buffer.old) × ((answer_of result).place ≤ length list.now) }
{
    let header = header::check_first(list)?;
    let spelled = measure(header, list)?;
    if buffer.len() < spelled.length {
        return Err(Reason::OutputTooShort.into());
    }
    put_lines(&mut Page::new(buffer), header, list);
    Ok(spelled)
}
