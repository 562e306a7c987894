// What 17 asks of a member and its site.
ghost use Rattle.std.specs.Prelude.{◌≡◌};
ghost use Rattle.member.specs.Steps.{valid_member};

use member::Member;
use site::Site;
use validity::Limits;
use world::Sizes;

#[tactic(auto, using(choice::specs::laws::ChoiceLaws::tests, refusals::specs::laws::RefusalLaws::answered), unfolding(member::specs::Steps::valid_member))]
pub fn valid_member(member: Member, site: Site) -> bool
    ensures { result ≡ valid_member member site }
{
    let weights = member.weights;
    let sizes = Sizes {
        n: member.n,
        weights,
        commit: member.commit,
        abort: member.abort,
        willing: 0,
    };
    if sizes.check().is_err() {
        return false;
    }
    if member.n <= member.own {
        return true;
    }
    Limits::new(member.n).valid_site(member.own, site)
}
