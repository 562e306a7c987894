// Whether a code is an outcome.
ghost use Rattle.std.specs.Prelude.{◌≡◌};
ghost use Rattle.vector.specs.Codes.{is_outcome};

#[tactic(auto, using(choice::specs::laws::ChoiceLaws::tests), unfolding(crate::specs::Codes::is_outcome))]
pub fn is_outcome(code: u8) -> bool
    ensures { result ≡ is_outcome code }
{
    code == 4 || code == 5
}
