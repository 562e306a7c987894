// Reading lines as a list.
// `while`, since the place moves by what is read. Text and place stand apart, since a refusal tells the place.
#![tactic(auto)]

ghost use Rattle.std.specs.Prelude.{◌≡◌, ◌+◌, ◌≤◌, length};
ghost use Rattle.text.specs.Page.{HasRoom, Put};
ghost use Rattle.refusals.specs.Refusals.{answer_number};
ghost use Rattle.spelling.specs.Answers.{answer_of};
ghost use Rattle.spelling.specs.WriteRead.{text_script, bytes_of, spelled_number, read_commands, read_lines};
ghost use Rattle.spelling.specs.Ranges.{HeaderInRange};
ghost use Rattle.read_lines.specs.laws.ReadLaws.{measured};

use header::Header;
use line_reader::read_line;
use refusals::{Reason, Refusal};
use spelling::Spelled;
use text::Page;
use world::World;

// The length of the list, its header with the commands from a place on, or 19 with its place.
fn measure(text: &[u8], from: usize) -> Result<Spelled, Refusal>
    requires { (5 ≤ from) × (from ≤ length text.now) }
    ensures { answer_of result ≡ measured text.now from }
{
    let mut length = 5;
    let mut at = from;
    while at < text.len() {
        let parsed = read_line(text, at)?;
        length += spelling::command_length(parsed.command);
        at = parsed.next;
    }
    Ok(Spelled {
        place: text.len(),
        length,
    })
}

// 1, or 3 to 5, of a list of so many bytes with this header.
#[tactic(auto, using(choice::specs::laws::ChoiceLaws::tests), unfolding(spelling::specs::WriteRead::spelled_number, header::specs::Headers::first_sizes, header::specs::Headers::header_sizes))]
fn check_list(header: Header, bytes: usize) -> Result<(), Reason>
    ensures { answer_number result ≡ spelled_number header bytes }
{
    if World::LIST_BYTES < bytes {
        return Err(Reason::ListTooLong);
    }
    header.sizes(weights::even_weights(header.n)).check()
}

// The header and every command that can be read from a place on, put on a page.
fn put_list(page: &mut Page, header: Header, text: &[u8], from: usize)
    requires { HeaderInRange header × (from ≤ length text.now) ×
        HasRoom page.old (length (bytes_of header (text_script text.now from).commands)) }
    ensures { Put page.old (bytes_of header (text_script text.now from).commands) page.new }
{
    spelling::put_header(page, header);
    let mut at = from;
    while at < text.len() {
        let Ok(parsed) = read_line(text, at) else {
            return;
        };
        spelling::put_command(page, parsed.command);
        at = parsed.next;
    }
}

// The list that the lines from a place on spell, with the header read before them.
fn read_commands(
    text: &[u8],
    header: Header,
    from: usize,
    buffer: &mut [u8],
) -> Result<Spelled, Refusal>
    requires { HeaderInRange header × (5 ≤ from) × (from ≤ length text.now) }
    ensures value { answer_of result ≡ (read_commands text.now header from buffer.old).answer }
    ensures buffer_after { buffer.new ≡ (read_commands text.now header from buffer.old).buffer }
    ensures length_in_bounds { ((answer_of result).length ≤ length buffer.old) × ((answer_of result).place ≤ length text.now) }
{
    let spelled = measure(text, from)?;
    check_list(header, spelled.length)?;
    if buffer.len() < spelled.length {
        return Err(Reason::OutputTooShort.into());
    }
    put_list(&mut Page::new(buffer), header, text, from);
    Ok(spelled)
}

// THE READER: text to list bytes, from the buffer's beginning; 19, then 1 and 3 to 5, then 20, and the buffer untouched.
pub fn read_lines(text: &[u8], buffer: &mut [u8]) -> Result<Spelled, Refusal>
    ensures value { answer_of result ≡ (read_lines text.now buffer.old).answer }
    ensures buffer_after { buffer.new ≡ (read_lines text.now buffer.old).buffer }
    ensures length_in_bounds { ((answer_of result).length ≤ length buffer.old) × ((answer_of result).place ≤ length text.now) }
{
    let Some(line) = line_reader::read_header_line(text) else {
        return Err(Reason::BadLine.into());
    };
    read_commands(text, line.header, line.next, buffer)
}
