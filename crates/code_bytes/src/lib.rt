// Sixteen codes in a buffer, one byte a code.
// Place by place: `copy_from_slice` asks first whether the two lie over each other, and then a site's codes go through several arrays.
// Any bytes, since worlds and rows come with any; slice and place are plain, since docs/TRUST.md names both functions.
#![tactic(auto)]

ghost use Rattle.std.specs.Prelude.{◌≡◌, ◌+◌, ◌≤◌, length};
ghost use Rattle.code_bytes.specs.CodeBytes.{put_codes, codes_from};

// Sixteen codes written from a place on.
#[tactic(auto, unfolding(crate::specs::CodeBytes::put_codes))]
pub fn put_codes(bytes: &mut [u8], at: usize, codes: [u8; 16])
    requires { at + 16 ≤ length bytes.old }
    ensures { bytes.new ≡ put_codes 16 bytes.old at codes }
{
    for k in 0..16 {
        bytes[at + k] = codes[k];
    }
}

// Sixteen codes read from a place on.
pub fn get_codes(bytes: &[u8], at: usize) -> [u8; 16]
    requires { at + 16 ≤ length bytes.now }
    ensures { result ≡ codes_from 16 bytes.now at }
{
    std::array::from_fn(|k| bytes[at + k])
}
