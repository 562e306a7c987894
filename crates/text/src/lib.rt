// Words and decimal numbers put one after the other on a page.
// No Display and no `write!`: no clause of theirs says which bytes stand in the buffer, and that those past them are as they were.
#![tactic(auto)]

ghost use Rattle.std.specs.Prelude.{◌≡◌, ◌+◌, ◌<◌, ◌≤◌, [], ◌∷◌, ◌++◌, length};
ghost use Rattle.text.specs.Text.{digit_at, decimal};
ghost use Rattle.text.specs.Page.{HasRoom, Put};

// A lent buffer, and the place up to which it is filled.
#[derive(Drop)]
pub struct Page<'a> {
    pub buffer: &'a mut [u8],
    pub at: usize,
}

// The word in a place of its length. A loop and no `copy_from_slice`: that one asks the C library for `memmove`.
fn copy_word(place: &mut [u8], word: &[u8])
    requires { length place.old ≡ length word.now }
    ensures { place.new ≡ word.now }
{
    for k in 0..word.len() {
        place[k] = word[k];
    }
}

impl<'a> Page<'a> {
    // A page that is filled from the buffer's beginning.
    pub fn new(buffer: &'a mut [u8]) -> Page<'a>
        ensures same_buffer { result.buffer.ghost_name ≡ buffer.entry.ghost_name }
        ensures bytes { result.buffer.now ≡ buffer.old }
        ensures place { result.at ≡ 0 }
    {
        Page { buffer, at: 0 }
    }

    // How many bytes fit.
    pub fn room(&self) -> usize
        requires { HasRoom self.now 0 }
        ensures { self.now.at + result ≡ length self.now.buffer.now }
    {
        self.buffer.len() - self.at
    }

    // One byte.
    pub fn put_byte(&mut self, byte: u8)
        requires { HasRoom self.old 1 }
        ensures put { Put self.old (byte ∷ []) self.new }
        ensures upper_bound { self.new.at ≤ self.old.at + 1 }
    {
        self.buffer[self.at] = byte;
        self.at += 1;
    }

    // A word.
    pub fn put_word(&mut self, word: &[u8])
        requires { HasRoom self.old (length word.now) }
        ensures { Put self.old word.now self.new }
    {
        let next = self.at + word.len();
        copy_word(&mut self.buffer[self.at..next], word);
        self.at = next;
    }

    // The digit at a unit, if the number reaches the unit; 48 and a digit are a byte, so the cast loses nothing.
    fn put_digit(&mut self, unit: usize, x: usize)
        requires { (0 < unit) × HasRoom self.old 1 }
        ensures put { Put self.old (digit_at unit x) self.new }
        ensures upper_bound { self.new.at ≤ self.old.at + 1 }
    {
        if x < unit {
            return;
        }
        self.put_byte((48 + x / unit % 10) as u8);
    }

    // The number in decimal: five units written out, since a loop over them needs their powers and the first digit told apart.
    pub fn put_decimal(&mut self, x: usize)
        requires { (x < 1000000) × HasRoom self.old 6 }
        ensures put { Put self.old (decimal x) self.new }
        ensures upper_bound { self.new.at ≤ self.old.at + 6 }
    {
        self.put_digit(100000, x);
        self.put_digit(10000, x);
        self.put_digit(1000, x);
        self.put_digit(100, x);
        self.put_digit(10, x);
        self.put_byte((48 + x % 10) as u8);
    }

    // A word, and the number after it.
    pub fn put_named(&mut self, word: &[u8], x: usize)
        requires { (x < 1000000) × HasRoom self.old (length word.now + 6) }
        ensures put { Put self.old (word.now ++ decimal x) self.new }
        ensures upper_bound { self.new.at ≤ self.old.at + length word.now + 6 }
    {
        self.put_word(word);
        self.put_decimal(x);
    }
}

// How many bytes the digit at a unit has.
fn digit_length(unit: usize, x: usize) -> usize
    ensures { (result ≡ length (digit_at unit x)) × (result ≤ 1) }
{
    usize::from(unit <= x)
}

// How many bytes the number has in decimal, unit by unit as above.
pub fn decimal_length(x: usize) -> usize
    ensures { (result ≡ length (decimal x)) × (result ≤ 6) }
{
    let high = digit_length(100000, x) + digit_length(10000, x) + digit_length(1000, x);
    high + digit_length(100, x) + digit_length(10, x) + 1
}
