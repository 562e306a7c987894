// Sets of sites as bits.
// Numbers, as lists, rows and the layout have them; docs/05-quiet-day.md names two of these functions.
#![tactic(auto)]

ghost use Rattle.std.specs.Prelude.{◌≡◌, ◌^◌, ◌≤◌, ◌<◌};
ghost use Rattle.bits.specs.Bits.{has_bit, only_site, every_site, other_sites};

// The set of one site.
pub fn only_site(site: usize) -> usize
    requires { site ≤ 16 }
    ensures { result ≡ only_site site }
{
    1 << site
}

// All sites below n.
pub fn every_site(n: usize) -> usize
    requires { n ≤ 16 }
    ensures { result ≡ every_site n }
{
    only_site(n) - 1
}

// All sites below n but one.
pub fn other_sites(n: usize, own: usize) -> usize
    requires { (n ≤ 16) × (own < n) }
    ensures { result ≡ other_sites n own }
{
    only_site(n) - 1 - only_site(own)
}

pub fn has_bit(bits: usize, site: usize) -> bool
    requires { site ≤ 16 }
    ensures { result ≡ has_bit bits site }
{
    bits / only_site(site) % 2 == 1
}
