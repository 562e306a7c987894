// A site's log letters and code digits.
// Three matches of three types: a trait of letters would be longer and have one use. Codes are bytes, see `site::Site`.
ghost use Rattle.std.specs.Prelude.{◌≡◌, true, ◌+◌, ◌≤◌, [], ◌∷◌, length};
ghost use Rattle.text.specs.Text.{text};
ghost use Rattle.text.specs.Page.{HasRoom, Put};
ghost use Rattle.vector.specs.Vector.{valid_vector};
ghost use Rattle.lines.specs.Lines.{prepare_letter, group_letter, outcome_letter, log_letters, code_digits};

use site::{Group, Outcome, Site};
use text::Page;

fn prepare_letter(prepared: bool) -> u8
    ensures { text (prepare_letter prepared) ≡ result ∷ [] }
{
    if prepared {
        return b'P';
    }
    b'-'
}

fn group_letter(group: Group) -> u8
    ensures { text (group_letter group) ≡ result ∷ [] }
{
    match group {
        Group::None => b'-',
        Group::Commit => b'C',
        Group::Abort => b'A',
    }
}

fn outcome_letter(outcome: Outcome) -> u8
    ensures { text (outcome_letter outcome) ≡ result ∷ [] }
{
    match outcome {
        Outcome::None => b'-',
        Outcome::Commit => b'c',
        Outcome::Abort => b'a',
    }
}

// P; C or A for the group; c or a for the outcome; - for none.
pub fn put_log(page: &mut Page, site: Site)
    requires { HasRoom page.old 3 }
    ensures put { Put page.old (log_letters site) page.new }
    ensures upper_bound { page.new.at ≤ page.old.at + 3 }
{
    let group = site.group;
    let outcome = site.outcome;
    page.put_byte(prepare_letter(site.prepared));
    page.put_byte(group_letter(group));
    page.put_byte(outcome_letter(outcome));
}

// The first n codes, a digit each.
pub fn put_codes(page: &mut Page, n: usize, codes: [u8; 16])
    requires { (n ≤ 16) × (valid_vector n codes ≡ true) × HasRoom page.old n }
    ensures put { Put page.old (code_digits n codes) page.new }
    ensures upper_bound { page.new.at ≤ page.old.at + n }
{
    for &code in &codes[..n] {
        page.put_byte(48 + code);
    }
}
