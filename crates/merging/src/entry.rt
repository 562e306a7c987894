// One entry: how far its level reaches, and what it becomes.
ghost use Rattle.std.specs.Prelude.{◌≡◌};
ghost use Rattle.merging.specs.Merging.{merge_entry};
ghost use Rattle.merging.specs.laws.Tops.{top as top_of};

// The highest byte of a code's level: the codes above it are those of a higher level. So one level is worked out for an entry, not two.
#[tactic(auto, using(choice::specs::laws::ChoiceLaws::tests), unfolding(crate::specs::laws::Tops::top))]
pub fn top(code: u8) -> u8
    ensures { result ≡ top_of code }
{
    match code {
        0 | 1 => code,
        2 | 3 => 3,
        _ => 255,
    }
}

// One level is compared with a code; an order of levels would work out two.
// The code of the higher level, the one held where the levels are equal.
pub fn higher(held: u8, said: u8) -> u8
    ensures { result ≡ merge_entry held said }
{
    if top(held) < said { said } else { held }
}
