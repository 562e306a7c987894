// What a competition's sizes are held to: whether its weights are valid, W and h.
// docs/TRUST.md names `measured`: it takes sixteen weights and any n up to 16.
ghost use Rattle.std.specs.Prelude.{◌≡◌, ◌≤◌, ◌<◌};
ghost use Rattle.weights.specs.Weights.{total_weight, largest_weight, valid_weights};

use crate::Measures;
use crate::made::even_weights;
use crate::sums::{largest_weight, total_weight};
use crate::valid::valid_weights;

// Where each site weighs 1, as in every first-edition list, W is n and h is 1, and nothing has to be added up.
pub fn measured(n: usize, weights: [u8; 16]) -> Measures
    requires { (0 < n) × (n ≤ 16) }
    ensures weighed { result ≡ record { valid = valid_weights n weights; total = total_weight weights; largest = largest_weight weights } }
    ensures bounded { (result.total ≤ 4080) × (result.largest ≤ result.total) }
{
    if weights == even_weights(n) {
        return Measures {
            valid: true,
            total: n,
            largest: 1,
        };
    }
    Measures {
        valid: valid_weights(n, weights),
        total: total_weight(weights),
        largest: largest_weight(weights),
    }
}
