// DELIVER: merge, adopt an outcome, answer by kind.
ghost use Rattle.std.specs.Prelude.{◌≡◌, ◌<◌, ◌≤◌};
ghost use Rattle.rules.specs.Rules.{deliver};
ghost use Rattle.rules.specs.Steps.{stepped};

use crate::Participant;
use deliveries::{adopt, answer};
use row::Row;
use rules::Step;

impl Participant {
    pub fn deliver(mut self, willing: bool, row: Row) -> Step
        requires { (self.n ≤ 16) × (self.own < self.n) × (row.sender < self.n) }
        ensures { stepped result ≡ (deliver self.own self.n willing row self.site).step }
    {
        let said = row.codes;
        let held = self.site.codes;
        let merged = merging::merge(self.n, self.own, row.sender, said, held);
        let codes = merged.codes;
        self.site.codes = codes;
        let heard = adopt(self.own, self.n, self.site);
        answer(row.kind, self.own, row.sender, willing, merged.news, heard)
    }
}
