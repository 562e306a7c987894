// The number of a call that no buffer fits.
// C takes an answer as a number.
ghost use Rattle.std.specs.Prelude.{◌≡◌};
ghost use Rattle.calls.specs.Calls.{unfit_number};

use refusals::Reason;
use world::World;

// For a store of so many bytes, where another buffer has not the length of the layout: 16, then 17.
#[tactic(auto, using(choice::specs::laws::ChoiceLaws::tests), unfolding(crate::specs::Calls::unfit_number))]
pub fn unfit_number(bytes: usize) -> u32
    ensures { result ≡ unfit_number bytes }
{
    if bytes < World::STORE_BYTES {
        return u32::from(Reason::StoreTooShort);
    }
    u32::from(Reason::InvalidWorld)
}
