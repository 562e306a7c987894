// Reads a list from standard input and prints it in the other edition, or its refusal.
// A program is its buffers, each of a length of its own, and one call; `reading` and `spelled_out` have the rest.
#![tactic(auto)]

ghost use Rattle.std.specs.Prelude.{◌≡◌, ◌≤◌, length};
ghost use Rattle.world.specs.Sizes.{list_bytes};
ghost use Rattle.spelling.specs.Answers.{answer_of};
ghost use Rattle.conversion.specs.Conversion.{convert};

use refusals::{Numbered, Refusal};
use spelling::Spelled;
use std::io;
use world::World;

// The list in the other edition, into a buffer that has room for the longest, so 20 is not met.
fn carry(list: &[u8], output: &mut [u8]) -> Result<Spelled, Refusal>
    requires { list_bytes ≤ length output.old }
    ensures value { answer_of result ≡ (convert list.now output.old).answer }
    ensures output_after { output.new ≡ (convert list.now output.old).buffer }
    ensures length_in_bounds { ((answer_of result).length ≤ length output.old) × ((answer_of result).place ≤ length list.now) × ((answer_of result).number ≡ 20 → ⊥) }
{
    conversion::convert(list, output)
}

// One byte more than a list may have is read, so that a list that is too long is noticed.
fn main(rt: HostRuntime) -> io::Result<()> {
    let mut input = [0u8; World::LIST_BYTES + 1];
    let mut output = [0u8; World::LIST_BYTES];
    let n = reading::read_full(&mut rt.stdin(), &mut input)?;
    let spelled = carry(&input[..n], &mut output);
    let k = spelled_out::shown(spelled.map_err(Numbered::from), &mut output);
    rt.write_all(&output[..k])
}
