// The refusals of a list's length.
ghost use Rattle.std.specs.Prelude.{◌≡◌};
ghost use Rattle.refusals.specs.Refusals.{answer_number};
ghost use Rattle.header.specs.Headers.{after_length};

use refusals::Reason;
use world::World;

#[tactic(auto, using(choice::specs::laws::ChoiceLaws::tests))]
pub fn check_length(list: &[u8]) -> Result<(), Reason>
    ensures { answer_number result ≡ after_length list.now 0 }
{
    if World::LIST_BYTES < list.len() {
        return Err(Reason::ListTooLong);
    }
    if list.len() < 5 {
        return Err(Reason::ListTooShort);
    }
    Ok(())
}
