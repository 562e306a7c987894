// The refusals of converting, all but 20. Two editions, so one `if`.
ghost use Rattle.std.specs.Prelude.{◌≡◌, ◌≤◌};
ghost use Rattle.refusals.specs.Refusals.{answer_number};
ghost use Rattle.conversion.specs.Conversion.{all_one, back_number, edition_number, convert_number};

use crate::editions::converted_length;
use refusals::Reason;
use world::World;

// Every site weighs 1.
fn all_one(weights: [u8; 16], n: usize) -> bool
    requires { n ≤ 16 }
    ensures { result ≡ all_one n weights }
{
    weights[..n].iter().all(|&weight| weight == 1)
}

// Going back: what length and header ask, then 22.
fn check_back(list: &[u8]) -> Result<(), Reason>
    ensures { answer_number result ≡ back_number list.now }
{
    let sizes = header::check_header(list)?;
    if !all_one(sizes.weights, sizes.n) {
        return Err(Reason::UnevenWeights);
    }
    Ok(())
}

// Whichever way the list goes.
fn check_edition(list: &[u8]) -> Result<(), Reason>
    ensures { answer_number result ≡ edition_number list.now }
{
    if header::is_second(list) {
        return check_back(list);
    }
    header::check_first(list)?;
    Ok(())
}

// The first refusal.
#[tactic(auto, using(crate::specs::laws::NumberLaws::lengths))]
pub fn check_conversion(list: &[u8]) -> Result<(), Reason>
    ensures { answer_number result ≡ convert_number list.now }
{
    check_edition(list)?;
    if World::LIST_BYTES < converted_length(list) {
        return Err(Reason::ListTooLong);
    }
    Ok(())
}
