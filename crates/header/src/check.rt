// The first condition of length and header that a list breaks.
ghost use Rattle.std.specs.Prelude.{◌≡◌, IfOk};
ghost use Rattle.refusals.specs.Refusals.{answer_number};
ghost use Rattle.header.specs.Headers.{header_of, first_header, is_cut, header_number, first_number, sizes_of, list_sizes};

use crate::Header;
use crate::editions::{first_header, header_length, read_header, read_weights};
use crate::length::check_length;
use refusals::Reason;
use world::Sizes;

impl Header {
    // The sizes of a header with these weights.
    pub fn sizes(self, weights: [u8; 16]) -> Sizes
        ensures { result ≡ sizes_of self weights }
    {
        Sizes {
            n: self.n,
            weights,
            commit: self.commit,
            abort: self.abort,
            willing: self.willing,
        }
    }
}

// n is 3 to 16, and not all bytes of the header are there.
fn is_cut(list: &[u8], n: usize) -> bool
    requires { n ≡ (header_of list.now).n }
    ensures { result ≡ is_cut list.now }
{
    world::sites_fit(n) && list.len() < header_length(list)
}

// The sizes of a list of either edition.
pub fn check_header(list: &[u8]) -> Result<Sizes, Reason>
    ensures number { answer_number result ≡ header_number list.now }
    ensures ok { IfOk result (λ sizes. sizes ≡ list_sizes list.now) }
{
    check_length(list)?;
    let header = read_header(list);
    if is_cut(list, header.n) {
        return Err(Reason::ListTooShort);
    }
    let sizes = header.sizes(read_weights(list, header.n));
    sizes.check()?;
    Ok(sizes)
}

// The header of a list that can only be of the first edition.
pub fn check_first(list: &[u8]) -> Result<Header, Reason>
    ensures number { answer_number result ≡ first_number list.now }
    ensures ok { IfOk result (λ header. header ≡ first_header list.now) }
{
    check_length(list)?;
    let header = first_header(list);
    header.sizes(weights::even_weights(header.n)).check()?;
    Ok(header)
}
