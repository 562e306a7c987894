// Weights of a header.
ghost use Rattle.std.specs.Prelude.{◌≡◌, ℕ, ◌≤◌};
ghost use Rattle.weights.specs.Weights.{weights_by, even_weights};

// How many of the sixteen weights are those of sites, where n may be any number.
#[tactic(auto, using(crate::specs::laws::WeightLaws::capped_weights))]
pub fn few_sites(n: usize) -> usize
    ensures { (result ≤ 16) × ((f : ℕ → ℕ) → weights_by f result ≡ weights_by f n) }
{
    n.min(16)
}

// 1 for each site.
pub fn even_weights(n: usize) -> [u8; 16]
    ensures { result ≡ even_weights n }
{
    let mut weights = [0; 16];
    weights[..few_sites(n)].fill(1);
    weights
}
