// The weights of a competition's sites.
#![tactic(auto)]

mod checked;
mod made;
mod sums;
mod valid;

pub use checked::measured;
pub use made::{even_weights, few_sites};

// Whether weights are as 21 and 17 want them, their sum and the largest: no Option, since `measured` tells the two of weights that are refused too.
#[derive(Clone, Copy)]
pub struct Measures {
    pub valid: bool,
    pub total: usize,
    pub largest: usize,
}
