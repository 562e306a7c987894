// Weights as 21 and 17 want them.
ghost use Rattle.std.specs.Prelude.{◌≡◌};
ghost use Rattle.weights.specs.Weights.{valid_weights};

// Not 0 at a site below n, 0 from n up.
pub fn valid_weights(n: usize, weights: [u8; 16]) -> bool
    ensures { result ≡ valid_weights n weights }
{
    weights.iter().enumerate().all(|(i, &weight)| if i < n { 0 < weight } else { weight == 0 })
}
