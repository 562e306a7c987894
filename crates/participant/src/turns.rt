// What a site does when it is told something: the conditions in the table's order, then the rule.
ghost use Rattle.std.specs.Prelude.{◌≡◌, ◌<◌, ◌≤◌};
ghost use Rattle.participant.specs.Turns.{start_turn, deliver_turn, timeout_turn, crash_turn, recover_turn, turned, moved};

use crate::Participant;
use refusals::Reason;
use row::Row;
use rules::Step;
use site::{AbortQuorum, CommitQuorum};

impl Participant {
    // START is for an active site 0.
    #[tactic(auto, using(choice::specs::laws::ChoiceLaws::tests), unfolding(crate::specs::Turns::start_turn))]
    pub fn try_start(self, willing: bool) -> Result<Step, Reason>
        requires { (self.n ≤ 16) × (0 < self.n) }
        ensures { turned result ≡ moved (start_turn self.own self.n willing self.site) }
    {
        if !self.site.up {
            return Err(Reason::SiteDown);
        }
        if self.own == 0 && self.site.state().is_active() {
            return Ok(self.start(willing));
        }
        Err(Reason::NotActive)
    }

    #[tactic(auto, using(choice::specs::laws::ChoiceLaws::tests), unfolding(crate::specs::Turns::deliver_turn))]
    pub fn try_deliver(self, willing: bool, row: Row) -> Result<Step, Reason>
        requires { (self.n ≤ 16) × (self.own < self.n) }
        ensures { turned result ≡ moved (deliver_turn self.own self.n willing row self.site) }
    {
        if !known::row_known(self.n, row) {
            return Err(Reason::UnknownRow);
        }
        if !bits::has_bit(row.destinations, self.own) {
            return Err(Reason::NotAddressed);
        }
        if !self.site.up {
            return Err(Reason::SiteDown);
        }
        Ok(self.deliver(willing, row))
    }

    #[tactic(auto, unfolding(crate::specs::Turns::timeout_turn))]
    pub fn try_timeout(
        self,
        weights: [u8; 16],
        commit: CommitQuorum,
        abort: AbortQuorum,
    ) -> Result<Step, Reason>
        requires { (self.n ≤ 16) × (self.own < self.n) }
        ensures { turned result ≡ moved (timeout_turn self.own self.n weights commit abort self.site) }
    {
        if !self.site.up {
            return Err(Reason::SiteDown);
        }
        Ok(self.timeout(weights, commit, abort))
    }

    #[tactic(auto, unfolding(crate::specs::Turns::crash_turn))]
    pub fn try_crash(self) -> Result<Step, Reason>
        requires { self.own < 16 }
        ensures { turned result ≡ moved (crash_turn self.own self.site) }
    {
        if !self.site.up {
            return Err(Reason::SiteDown);
        }
        Ok(self.crash())
    }

    #[tactic(auto, unfolding(crate::specs::Turns::recover_turn))]
    pub fn try_recover(self) -> Result<Step, Reason>
        requires { self.own < 16 }
        ensures { turned result ≡ moved (recover_turn self.own self.site) }
    {
        if self.site.up {
            return Err(Reason::SiteUp);
        }
        Ok(self.recover())
    }
}
