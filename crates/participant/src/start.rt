// START, at site 0.
ghost use Rattle.std.specs.Prelude.{◌≡◌, ◌<◌, ◌≤◌};
ghost use Rattle.rules.specs.Rules.{start};
ghost use Rattle.rules.specs.Steps.{stepped};

use crate::Participant;
use row::Kind;
use rules::{Step, commanding};
use site::Outcome;

impl Participant {
    // A call of its own: it writes at place 0, and in line the compiler would keep that byte apart from the fifteen others for every command.
    #[inline(never)]
    #[tactic(auto, unfolding(rules::specs::Rules::start, rules::specs::Rules::commanding, rules::specs::Rules::command_row, site::specs::Fields::with_coordinator, site::specs::Fields::with_prepared, site::specs::Fields::with_codes, site::specs::Fields::with_outcome, site::specs::Records::write_prepare, site::specs::Records::write_outcome, site::specs::Records::with_own, site::specs::Records::outcome_of, site::specs::Records::record_code))]
    pub fn start(mut self, willing: bool) -> Step
        requires { (self.n ≤ 16) × (0 < self.n) }
        ensures { stepped result ≡ (start self.n willing self.site).step }
    {
        self.site.coordinator = true;
        if willing {
            return commanding(Kind::Prepare, 0, self.n, self.site.write_prepare(0));
        }
        commanding(
            Kind::Outcome,
            0,
            self.n,
            self.site.write_outcome(0, Outcome::Abort, 5),
        )
    }
}
