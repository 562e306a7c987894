// CRASH and RECOVER.
ghost use Rattle.std.specs.Prelude.{◌≡◌, ◌<◌};
ghost use Rattle.rules.specs.Rules.{crash, recover};
ghost use Rattle.rules.specs.Steps.{stepped};

use crate::Participant;
use rules::{Step, kept_vector, restarted, silent};

impl Participant {
    #[tactic(auto, unfolding(rules::specs::Rules::crash, rules::specs::Rules::silent, site::specs::Fields::with_up, site::specs::Fields::with_coordinator, site::specs::Fields::with_codes))]
    pub fn crash(mut self) -> Step
        requires { self.own < 16 }
        ensures { stepped result ≡ (crash self.own self.site).step }
    {
        let mut codes = kept_vector(self.site);
        codes[self.own] = u8::from(self.site.state());
        self.site.up = false;
        self.site.coordinator = false;
        self.site.codes = codes;
        silent(self.site)
    }

    // With an empty log an aborted subordinate; with any record up, and nothing else.
    #[tactic(auto, using(choice::specs::laws::ChoiceLaws::tests), unfolding(rules::specs::Rules::recover, rules::specs::Rules::silent, site::specs::Fields::with_up))]
    pub fn recover(mut self) -> Step
        requires { self.own < 16 }
        ensures { stepped result ≡ (recover self.own self.site).step }
    {
        if self.site.state().is_active() {
            return restarted(self.own, self.site);
        }
        self.site.up = true;
        silent(self.site)
    }
}
