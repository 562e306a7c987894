// The bytes that stand for a group, an outcome and a state: the number of the variant.
ghost use Rattle.std.specs.Prelude.{◌≡◌};
ghost use Rattle.site.specs.Bytes.{group_byte, outcome_byte, group_of, outcome_of};
ghost use Rattle.site.specs.State.{code_of};

use crate::{Group, Outcome, State};

impl From<Group> for u8 {
    ghost from_gives = { λ group byte. byte ≡ group_byte group };

    #[tactic(auto, unfolding(crate::specs::Bytes::group_byte))]
    fn from(group: Group) -> u8 {
        group as u8
    }
}

impl From<Outcome> for u8 {
    ghost from_gives = { λ outcome byte. byte ≡ outcome_byte outcome };

    #[tactic(auto, unfolding(crate::specs::Bytes::outcome_byte))]
    fn from(outcome: Outcome) -> u8 {
        outcome as u8
    }
}

impl From<State> for u8 {
    ghost from_gives = { λ state code. code ≡ code_of state };

    #[tactic(auto, unfolding(crate::specs::State::code_of))]
    fn from(state: State) -> u8 {
        state as u8
    }
}

// Any other byte is none.
impl From<u8> for Group {
    ghost from_gives = { λ byte group. group ≡ group_of byte };

    #[tactic(auto, using(choice::specs::laws::ChoiceLaws::tests), unfolding(crate::specs::Bytes::group_of))]
    fn from(byte: u8) -> Group {
        match byte {
            1 => Group::Commit,
            2 => Group::Abort,
            _ => Group::None,
        }
    }
}

impl From<u8> for Outcome {
    ghost from_gives = { λ byte outcome. outcome ≡ outcome_of byte };

    #[tactic(auto, using(choice::specs::laws::ChoiceLaws::tests), unfolding(crate::specs::Bytes::outcome_of))]
    fn from(byte: u8) -> Outcome {
        match byte {
            1 => Outcome::Commit,
            2 => Outcome::Abort,
            _ => Outcome::None,
        }
    }
}
