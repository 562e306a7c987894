// How many entries rise in a merge.
// Marks are bytes, which are added up sixteen at once: a sum in the loop of the merge was slower.
ghost use Rattle.std.specs.Prelude.{◌≡◌, ◌≤◌, get_or};
ghost use Rattle.choice.specs.Choice.{pick};
ghost use Rattle.merging.specs.Merging.{rises};
ghost use Rattle.choice.specs.Places.{sum_to};

use crate::entry::top;

// 1 where the level said is higher than the one held.
pub fn rise(held: u8, said: u8) -> u8
    ensures { (result ≡ pick (rises held said) 1 0) × (result ≤ 1) }
{
    u8::from(top(held) < said)
}

// The sum of the marks, in sixteen bits, so that more of them are added at once.
pub fn total(rose: [u8; 16]) -> usize
    ensures { result ≡ sum_to (λ i. get_or rose i 0) 16 }
{
    let sum: u16 = rose.iter().map(|&mark| u16::from(mark)).sum();
    usize::from(sum)
}
