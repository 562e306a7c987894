// Reads a list from standard input and prints its lines, or its refusal.
// A program is its buffers, each of a length of its own, and one call; `reading` and `spelled_out` have the rest.
#![tactic(auto)]

ghost use Rattle.std.specs.Prelude.{◌≡◌, ◌≤◌, length};
ghost use Rattle.world.specs.Sizes.{text_bytes};
ghost use Rattle.spelling.specs.Answers.{answer_of};
ghost use Rattle.spelling.specs.WriteRead.{write_lines};

use refusals::{Numbered, Refusal};
use spelling::Spelled;
use std::io;
use world::World;

// The lines of a list, into a buffer that has room for the longest text, so 20 is not met.
fn write(list: &[u8], text: &mut [u8]) -> Result<Spelled, Refusal>
    requires { text_bytes ≤ length text.old }
    ensures value { answer_of result ≡ (write_lines list.now text.old).answer }
    ensures text_after { text.new ≡ (write_lines list.now text.old).buffer }
    ensures length_in_bounds { ((answer_of result).length ≤ length text.old) × ((answer_of result).place ≤ length list.now) × ((answer_of result).number ≡ 20 → ⊥) }
{
    write_lines::write_lines(list, text)
}

// One byte more than a list may have is read, so that a list that is too long is noticed.
fn main(rt: HostRuntime) -> io::Result<()> {
    let mut input = [0u8; World::LIST_BYTES + 1];
    let mut text = [0u8; World::TEXT_BYTES];
    let n = reading::read_full(&mut rt.stdin(), &mut input)?;
    let spelled = write(&input[..n], &mut text);
    let k = spelled_out::shown(spelled.map_err(Numbered::from), &mut text);
    rt.write_all(&text[..k])
}
