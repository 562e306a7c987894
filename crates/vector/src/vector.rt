// What a vector's entries below n weigh and show.
ghost use Rattle.std.specs.Prelude.{◌≡◌, ◌≤◌};
ghost use Rattle.weights.specs.Weights.{weight_of};
ghost use Rattle.vector.specs.Vector.{weigh as weigh_of, count as count_of, lowest_outcome};

use crate::codes::is_outcome;

// What the entries below n that are the code weigh.
#[tactic(auto, using(choice::specs::laws::ChoiceLaws::tests), unfolding(crate::specs::Vector::weigh, crate::specs::Vector::entry_weight, weights::specs::Weights::weight_of))]
pub fn weigh(n: usize, weights: [u8; 16], codes: [u8; 16], code: u8) -> usize
    requires { n ≤ 16 }
    ensures { result ≡ weigh_of (weight_of weights) n codes code }
{
    let mut total = 0;
    for k in 0..n {
        if codes[k] == code {
            total += usize::from(weights[k]);
        }
    }
    total
}

// How many entries below n are the code.
pub fn count(n: usize, codes: [u8; 16], code: u8) -> usize
    requires { n ≤ 16 }
    ensures { result ≡ count_of n codes code }
{
    codes[..n].iter().filter(|&&held| held == code).count()
}

// The outcome that the lowest site below n shows, or 0.
pub fn lowest_outcome(n: usize, codes: [u8; 16]) -> u8
    requires { n ≤ 16 }
    ensures { result ≡ lowest_outcome n codes }
{
    for &code in &codes[..n] {
        if is_outcome(code) {
            return code;
        }
    }
    0
}
