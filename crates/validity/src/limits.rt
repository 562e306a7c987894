// A vector as 17 wants it. The limits are made once for all vectors of a world, and sixteen entries are compared with them at once.
ghost use Rattle.std.specs.Prelude.{◌≡◌, ◌≤◌};
ghost use Rattle.vector.specs.Vector.{valid_vector};
ghost use Rattle.validity.specs.laws.Limits.{limits_to};

// What each entry may be at most: 5 below n, 0 from n up.
#[derive(Clone, Copy)]
pub struct Limits {
    n: usize,
    most: [u8; 16],
    ghost made: { most ≡ limits_to n },
}

impl Limits {
    pub fn new(n: usize) -> Limits
        requires { n ≤ 16 }
        ensures { result.n ≡ n }
    {
        let mut most = [0; 16];
        most[..n].fill(5);
        Limits { n, most }
    }

    // Every entry is within its limit. Folded to the end: `all` stops early, and then one entry is compared after another.
    pub(crate) fn admit(self, codes: [u8; 16]) -> bool
        ensures { result ≡ valid_vector self.n codes }
    {
        let most = self.most;
        codes
            .iter()
            .zip(most.iter())
            .fold(true, |valid, (code, limit)| valid & (code <= limit))
    }
}
