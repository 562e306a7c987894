// Carrying a list from one edition to the other.
#![tactic(auto)]

mod editions;
mod number;

ghost use Rattle.std.specs.Prelude.{◌≡◌, ◌≤◌, length};
ghost use Rattle.spelling.specs.Answers.{answer_of};
ghost use Rattle.conversion.specs.Conversion.{convert};

use editions::{converted_length, put_converted};
use number::check_conversion;
use refusals::{Reason, Refusal};
use spelling::Spelled;
use text::Page;

// CONVERTING, from the buffer's beginning; 1 to 5, 21, 22, 1 of the converted list, then 20, and the buffer untouched.
pub fn convert(list: &[u8], buffer: &mut [u8]) -> Result<Spelled, Refusal>
    ensures value { answer_of result ≡ (convert list.now buffer.old).answer }
    ensures buffer_after { buffer.new ≡ (convert list.now buffer.old).buffer }
    ensures length_in_bounds { ((answer_of result).length ≤ length buffer.old) × ((answer_of result).place ≤ length list.now) }
{
    check_conversion(list)?;
    let length = converted_length(list);
    if buffer.len() < length {
        return Err(Reason::OutputTooShort.into());
    }
    put_converted(&mut Page::new(buffer), list);
    Ok(Spelled {
        place: list.len(),
        length,
    })
}
