// What refusal 10 asks of a row.
// The row may be any, so its kind and codes are bytes; n is a plain number, since docs/TRUST.md names `row_known`.
#![tactic(auto)]

ghost use Rattle.std.specs.Prelude.{◌≡◌, ◌≤◌};
ghost use Rattle.row.specs.Rows.{codes_known, row_known};

use row::Row;

// The codes below n are at most 5. Folded to the end: `all` stops early, and then one code is compared after another.
fn codes_known(n: usize, codes: [u8; 16]) -> bool
    requires { n ≤ 16 }
    ensures { result ≡ codes_known n codes }
{
    codes[..n]
        .iter()
        .fold(true, |known, &code| known & (code <= 5))
}

#[tactic(auto, using(choice::specs::laws::ChoiceLaws::tests), unfolding(row::specs::Rows::row_known))]
pub fn row_known(n: usize, row: Row) -> bool
    requires { n ≤ 16 }
    ensures { result ≡ row_known n row }
{
    (1..=7).contains(&row.kind) && row.sender < n && codes_known(n, row.codes)
}
