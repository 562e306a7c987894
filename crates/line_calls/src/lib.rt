// What the calls offered to C that write into a lent buffer are made of: the output's length and the place go into a result of 16 bytes.
// C takes an answer as a number, 0 for an accepted call.
#![tactic(auto)]

ghost use Rattle.std.specs.Prelude.{◌≡◌, eqb, length};
ghost use Rattle.std.specs.Fn.{FnOnceReturnsAtMut};
ghost use Rattle.layout.specs.Numbers.{put_number};
ghost use Rattle.spelling.specs.Answers.{answer_of};
ghost use Rattle.spelling.specs.WriteRead.{write_lines, read_lines};
ghost use Rattle.conversion.specs.Conversion.{convert};
ghost use Rattle.quiet.specs.QuietList.{write_quiet};
ghost use Rattle.line_calls.specs.LineCalls.{lines_result_bytes, lines_call};
ghost use Rattle.line_calls.specs.laws.LineCallLaws.{AnsweredBy};

use refusals::{Reason, Refusal};
use site::{AbortQuorum, CommitQuorum};
use spelling::Spelled;

// The length of these calls' result buffer.
pub const RESULT_BYTES: usize = 16;

// A result of the length that it must have.
fn is_result(res: &[u8]) -> bool
    ensures { result ≡ eqb (length res.now) lines_result_bytes }
{
    res.len() == RESULT_BYTES
}

// Length and place into the result; the number.
fn put_answer(res: &mut [u8], answer: Result<Spelled, Refusal>) -> u32
    requires { length res.old ≡ 16 }
    ensures value { result ≡ (answer_of answer).number }
    ensures res_after { res.new ≡ put_number 8 (put_number 8 res.old 0 (answer_of answer).length) 8 (answer_of answer).place }
{
    let (number, length, place) = match answer {
        Ok(spelled) => (0, spelled.length, spelled.place),
        Err(refusal) => (u32::from(refusal.reason), 0, refusal.place),
    };
    encode::put_number(res, 0, 8, length);
    encode::put_number(res, 8, 8, place);
    number
}

// One call: the result's length, the work on the buffer, and its answer.
fn answered<F: FnOnce(&mut [u8]) -> Result<Spelled, Refusal>>(
    buffer: &mut [u8],
    res: &mut [u8],
    work: F,
) -> u32
    requires { F.IsAlwaysCallable work }
    ensures { AnsweredBy (λ answer after. FnOnceReturnsAtMut F.FnOnce work buffer.old answer after) buffer.old res.old result buffer.new res.new }
{
    if !is_result(res) {
        return u32::from(Reason::InvalidWorld);
    }
    let answer = work(buffer);
    put_answer(res, answer)
}

// Writing lines.
pub fn write_call(list: &[u8], buffer: &mut [u8], res: &mut [u8]) -> u32
    ensures value { result ≡ (lines_call (write_lines list.now) buffer.old res.old).number }
    ensures buffer_after { buffer.new ≡ (lines_call (write_lines list.now) buffer.old res.old).buffer }
    ensures res_after { res.new ≡ (lines_call (write_lines list.now) buffer.old res.old).result }
{
    answered(buffer, res, |buffer| write_lines::write_lines(list, buffer))
}

// Reading lines.
pub fn read_call(text: &[u8], buffer: &mut [u8], res: &mut [u8]) -> u32
    ensures value { result ≡ (lines_call (read_lines text.now) buffer.old res.old).number }
    ensures buffer_after { buffer.new ≡ (lines_call (read_lines text.now) buffer.old res.old).buffer }
    ensures res_after { res.new ≡ (lines_call (read_lines text.now) buffer.old res.old).result }
{
    answered(buffer, res, |buffer| read_lines::read_lines(text, buffer))
}

// A list in the other edition.
pub fn convert_call(list: &[u8], buffer: &mut [u8], res: &mut [u8]) -> u32
    ensures value { result ≡ (lines_call (convert list.now) buffer.old res.old).number }
    ensures buffer_after { buffer.new ≡ (lines_call (convert list.now) buffer.old res.old).buffer }
    ensures res_after { res.new ≡ (lines_call (convert list.now) buffer.old res.old).result }
{
    answered(buffer, res, |buffer| conversion::convert(list, buffer))
}

// Writing the quiet day.
pub fn quiet_call(n: usize, commit: usize, abort: usize, buffer: &mut [u8], res: &mut [u8]) -> u32
    ensures value { result ≡ (lines_call (write_quiet n (record { 0 = commit }) (record { 0 = abort })) buffer.old res.old).number }
    ensures buffer_after { buffer.new ≡ (lines_call (write_quiet n (record { 0 = commit }) (record { 0 = abort })) buffer.old res.old).buffer }
    ensures res_after { res.new ≡ (lines_call (write_quiet n (record { 0 = commit }) (record { 0 = abort })) buffer.old res.old).result }
{
    answered(
        buffer,
        res,
        |buffer| quiet::write_quiet(n, CommitQuorum(commit), AbortQuorum(abort), buffer),
    )
}
