// The loop over a vector's entries.
ghost use Rattle.std.specs.Prelude.{◌≡◌, ◌<◌, ◌≤◌};
ghost use Rattle.merging.specs.Merging.{merging};

use crate::Merged;
use crate::entry::higher;
use crate::news::{rise, total};

// The vector held, merged with what a sender's row says, and how many entries rose: the sender's entry first, then all below n.
// The loop meets the sender's again. It goes by what was held, so it stores the same code and the same mark over it: a mark is stored and not
// added, and the entry does not rise twice. The receiver's own is put back at the end and is then none that rose, also where it came first.
pub fn merge(n: usize, own: usize, sender: usize, said: [u8; 16], held: [u8; 16]) -> Merged
    requires { (n ≤ 16) × (own < n) × (sender < n) }
    ensures { result ≡ merging n own sender said held }
{
    let mut codes = held;
    let mut rose = [0; 16];
    codes[sender] = higher(held[sender], said[sender]);
    rose[sender] = rise(held[sender], said[sender]);
    for k in 0..n {
        codes[k] = higher(held[k], said[k]);
        rose[k] = rise(held[k], said[k]);
    }
    codes[own] = held[own];
    rose[own] = 0;
    Merged {
        codes,
        news: total(rose),
    }
}
