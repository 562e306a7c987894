// The sum of the weights, and the largest.
ghost use Rattle.std.specs.Prelude.{◌≡◌, ◌≤◌};
ghost use Rattle.weights.specs.Weights.{total_weight, largest_weight};

// W, at most 4,080.
pub fn total_weight(weights: [u8; 16]) -> usize
    ensures { (result ≡ total_weight weights) × (result ≤ 4080) }
{
    weights.iter().map(|&weight| usize::from(weight)).sum()
}

// h, no more than W.
pub fn largest_weight(weights: [u8; 16]) -> usize
    ensures { (result ≡ largest_weight weights) × (result ≤ total_weight weights) }
{
    let largest = weights.iter().copied().max().unwrap_or(0);
    usize::from(largest)
}
