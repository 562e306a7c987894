// Words and decimal numbers found at a place of a text.
// No `parse`: it takes leading noughts and a sign, and tells no place. Text and place stand apart, since a refusal tells the place.
#![tactic(auto)]

ghost use Rattle.std.specs.Prelude.{◌≡◌, ◌+◌, ◌<◌, ◌≤◌, length};
ghost use Rattle.scan.specs.Scan.{is_digit, word_at, digits_from, number_at, named_at};

use command::byte_at;

// A number, and the place after its digits.
#[derive(Clone, Copy)]
pub struct Number {
    pub value: usize,
    pub next: usize,
}

// The word stands at the place.
pub fn word_at(text: &[u8], at: usize, word: &[u8]) -> bool
    requires { at ≤ length text.now }
    ensures { result ≡ word_at word.now text.now at }
{
    text[at..].starts_with(word)
}

// A byte of 0 to 9.
fn is_digit(byte: usize) -> bool
    ensures { result ≡ is_digit byte }
{
    (48..=57).contains(&byte)
}

// The digits after the first, at most four; a number that begins with a nought has none.
#[tactic(auto, using(crate::specs::laws::NumberLaws::digits_nought), unfolding(crate::specs::Scan::number))]
fn digits_from(text: &[u8], at: usize, first: usize) -> Number
    requires { (at ≤ length text.now) × (first < 10) }
    ensures { result ≡ digits_from 4 text.now at first }
{
    let mut value = first;
    let mut next = at;
    for _ in 0..4usize {
        let byte = byte_at(text, next);
        if value == 0 {
            return Number { value, next };
        }
        if !is_digit(byte) {
            return Number { value, next };
        }
        value = 10 * value + (byte - 48);
        next += 1;
    }
    Number { value, next }
}

// The number at the place, without leading noughts and at most the limit.
pub fn read_number(text: &[u8], at: usize, limit: usize) -> Option<Number>
    ensures { result ≡ number_at limit text.now at }
{
    let first = byte_at(text, at);
    if !is_digit(first) {
        return None;
    }
    let number = digits_from(text, at + 1, first - 48);
    if limit < number.value {
        return None;
    }
    Some(number)
}

// The number after a word.
pub fn read_named(text: &[u8], at: usize, word: &[u8], limit: usize) -> Option<Number>
    requires { at ≤ length text.now }
    ensures { result ≡ named_at word.now limit text.now at }
{
    if !word_at(text, at, word) {
        return None;
    }
    read_number(text, at + word.len(), limit)
}
