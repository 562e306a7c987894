// The place that holds a row; for 0 the lowest free place.
ghost use Rattle.std.specs.Prelude.{◌≡◌, ℕ, ◌<◌, length, get_or, MatchOption};
ghost use Rattle.table.specs.Table.{place_of};

// The lowest place that holds x, where none below `from` does.
#[tactic(auto, using(crate::specs::laws::LoopLaws::scan_finds, crate::specs::laws::LoopLaws::scan_fails))]
pub fn place_from(held: &[u16], x: u16, from: usize) -> Option<usize>
    requires { (p : ℕ) → p < from → get_or held.now p 0 ≡ x → ⊥ }
    ensures { MatchOption result (place_of x held.now ≡ length held.now) (λ p. (p ≡ place_of x held.now) × (p < length held.now)) }
{
    for p in from..held.len() {
        if held[p] == x {
            return Some(p);
        }
    }
    None
}

pub fn place_of(held: &[u16], x: u16) -> Option<usize>
    ensures { MatchOption result (place_of x held.now ≡ length held.now) (λ p. (p ≡ place_of x held.now) × (p < length held.now)) }
{
    place_from(held, x, 0)
}
