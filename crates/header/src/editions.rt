// The header's numbers, weights and length. The second edition begins with 130; numbers of 16 bits have their low byte first.
// Two editions, so one `if` wherever they differ. Each header is four numbers at places and of widths of its own.
ghost use Rattle.std.specs.Prelude.{◌≡◌, ◌+◌, ◌≤◌, ◌<◌, get_or};
ghost use Rattle.word.specs.Words.{word_at};
ghost use Rattle.weights.specs.Weights.{weights_by};
ghost use Rattle.header.specs.Headers.{first_header, second_header, is_second, header_of, header_weights, header_length};

use crate::Header;
use command::byte_at;
use site::{AbortQuorum, CommitQuorum};

// The 16 bits at a place of the header; bytes past the list's end are 0, so they are numbers and not two bytes of an array.
#[tactic(auto, unfolding(word::specs::Words::word_at))]
fn word_in(list: &[u8], at: usize) -> usize
    requires { at ≤ 6 }
    ensures { result ≡ word_at list.now at }
{
    byte_at(list, at) + 256 * byte_at(list, at + 1)
}

// n, C, A, and the willing sites.
#[tactic(auto, unfolding(crate::specs::Headers::first_header))]
pub fn first_header(list: &[u8]) -> Header
    ensures { result ≡ first_header list.now }
{
    Header {
        n: byte_at(list, 0),
        commit: CommitQuorum(byte_at(list, 1)),
        abort: AbortQuorum(byte_at(list, 2)),
        willing: word_in(list, 3),
    }
}

#[tactic(auto, unfolding(crate::specs::Headers::second_header))]
fn second_header(list: &[u8]) -> Header
    ensures { result ≡ second_header list.now }
{
    Header {
        n: byte_at(list, 1),
        commit: CommitQuorum(word_in(list, 2)),
        abort: AbortQuorum(word_in(list, 4)),
        willing: word_in(list, 6),
    }
}

// A list of the second edition.
#[tactic(auto, unfolding(crate::specs::Headers::is_second))]
pub fn is_second(list: &[u8]) -> bool
    ensures { result ≡ is_second list.now }
{
    byte_at(list, 0) == 130
}

#[tactic(auto, using(choice::specs::laws::ChoiceLaws::tests), unfolding(crate::specs::Headers::header_of))]
pub fn read_header(list: &[u8]) -> Header
    ensures { result ≡ header_of list.now }
{
    if is_second(list) {
        second_header(list)
    } else {
        first_header(list)
    }
}

// The place of the first command.
#[tactic(auto, using(choice::specs::laws::ChoiceLaws::tests), unfolding(crate::specs::Headers::header_length, crate::specs::Headers::header_of, crate::specs::Headers::second_header))]
pub fn header_length(list: &[u8]) -> usize
    ensures { result ≡ header_length list.now }
{
    if is_second(list) {
        8 + byte_at(list, 1)
    } else {
        5
    }
}

// A byte of the list as a weight: `byte_at` answers with a number.
fn weight_in(list: &[u8], at: usize) -> u8
    ensures { result ≡ get_or list.now at 0 }
{
    byte_at(list, at) as u8
}

// The n weights after the numbers.
fn listed_weights(list: &[u8], n: usize) -> [u8; 16]
    ensures { result ≡ weights_by (λ i. get_or list.now (8 + i) 0) n }
{
    std::array::from_fn(|k| if k < n { weight_in(list, 8 + k) } else { 0 })
}

// The weights of a header of n sites, in sixteen places whatever n: 1 each in the first edition.
#[tactic(auto, using(choice::specs::laws::ChoiceLaws::tests), unfolding(crate::specs::Headers::header_weights))]
pub fn read_weights(list: &[u8], n: usize) -> [u8; 16]
    requires { n ≡ (header_of list.now).n }
    ensures { result ≡ header_weights list.now }
{
    if is_second(list) {
        listed_weights(list, n)
    } else {
        weights::even_weights(n)
    }
}
