// Writing to the log. Each write also sets the own entry to the state it leads to.
// Its code is handed in beside the group or outcome: what `join_group` and `write_outcome` promise, they promise of any code.
ghost use Rattle.std.specs.Prelude.{◌≡◌, Bool, ◌<◌, set};
ghost use Rattle.site.specs.Fields.{blank_site, with_group, with_outcome};
ghost use Rattle.site.specs.Records.{write_prepare, with_own};

use crate::{Group, Outcome, Site};

impl Site {
    // Up or down, subordinate, empty log, both vectors 0.
    #[tactic(auto, unfolding(crate::specs::Fields::blank_site, crate::specs::Fields::zero_vector))]
    pub fn blank(up: bool) -> Site
        ensures { result ≡ blank_site up }
    {
        Site {
            up,
            coordinator: false,
            prepared: false,
            group: Group::None,
            joined: [0; 16],
            outcome: Outcome::None,
            codes: [0; 16],
        }
    }

    #[tactic(auto, unfolding(crate::specs::Records::write_prepare, crate::specs::Fields::with_prepared, crate::specs::Records::with_own, crate::specs::Fields::with_codes))]
    pub fn write_prepare(mut self, own: usize) -> Site
        requires { own < 16 }
        ensures { result ≡ write_prepare own self }
    {
        self.codes[own] = 1;
        self.prepared = true;
        self
    }

    // The group record, with the vector as it is after joining.
    #[tactic(auto, unfolding(crate::specs::Fields::with_group, crate::specs::Records::with_own, crate::specs::Fields::with_codes))]
    pub fn join_group(mut self, own: usize, group: Group, code: u8) -> Site
        requires { own < 16 }
        ensures { result ≡ with_group group (set self.codes own code) (with_own own code self) }
    {
        self.codes[own] = code;
        let codes = self.codes;
        Site {
            group,
            joined: codes,
            ..self
        }
    }

    #[tactic(auto, unfolding(crate::specs::Fields::with_outcome, crate::specs::Records::with_own, crate::specs::Fields::with_codes))]
    pub fn write_outcome(mut self, own: usize, outcome: Outcome, code: u8) -> Site
        requires { own < 16 }
        ensures { result ≡ with_outcome outcome (with_own own code self) }
    {
        self.codes[own] = code;
        Site { outcome, ..self }
    }
}
