// Reads lines from standard input and prints the list's bytes, or the refusal.
// A program is its buffers, each of a length of its own, and one call; `reading` and `spelled_out` have the rest.
#![tactic(auto)]

ghost use Rattle.std.specs.Prelude.{◌≡◌, ◌≤◌, length};
ghost use Rattle.world.specs.Sizes.{list_bytes};
ghost use Rattle.spelling.specs.Answers.{answer_of};
ghost use Rattle.from_lines.specs.FromLines.{from_lines};

use refusals::{Numbered, Reason, Refusal};
use spelling::Spelled;
use std::io;
use world::World;

// The longest text that is read. No list has a longer one, so that is refused as its list would be: 1.
const LONGEST: usize = 262144;

// The list of a text's lines, into a buffer that has room for the longest list, so 20 is not met.
fn read(text: &[u8], list: &mut [u8]) -> Result<Spelled, Refusal>
    requires { list_bytes ≤ length list.old }
    ensures value { answer_of result ≡ (from_lines text.now list.old).answer }
    ensures list_after { list.new ≡ (from_lines text.now list.old).buffer }
    ensures length_in_bounds { ((answer_of result).length ≤ length list.old) × ((answer_of result).place ≤ 262144) × ((answer_of result).number ≡ 20 → ⊥) }
{
    if LONGEST < text.len() {
        return Err(Reason::ListTooLong.into());
    }
    read_lines::read_lines(text, list)
}

// One byte more is read, so that a longer text is noticed.
fn main(rt: HostRuntime) -> io::Result<()> {
    let mut input = [0u8; LONGEST + 1];
    let mut list = [0u8; World::LIST_BYTES];
    let n = reading::read_full(&mut rt.stdin(), &mut input)?;
    let spelled = read(&input[..n], &mut list);
    let k = spelled_out::shown(spelled.map_err(Numbered::from), &mut list);
    rt.write_all(&list[..k])
}
