// A rule's step put into site, row count, news and store.
ghost use Rattle.std.specs.Prelude.{◌≡◌, ℕ, List, ◌+◌, ◌≤◌, ◌<◌, IfOk, IfErr};
ghost use Rattle.refusals.specs.declared.Reason.TheVariants.{InvalidWorld};
ghost use Rattle.site.specs.declared.Site.{Site};
ghost use Rattle.site.specs.Records.{Written};
ghost use Rattle.rules.specs.Steps.{stepped};
ghost use Rattle.world.specs.Sizes.{max_news};
ghost use Rattle.play.specs.Calls.{enter};
ghost use Rattle.play.specs.laws.Changes.{Ready, Acts, entry_of};

use crate::{Change, Head};
use refusals::Reason;
use row::Row;
use rules::Step;
use world::World;

// The news added to that before, or 17 where it would pass its limit, which may be reached.
fn add_news(before: usize, news: usize) -> Result<usize, Reason>
    requires { before ≤ max_news }
    ensures ok { IfOk result (λ sum. (sum ≡ before + news) × (before + news ≤ max_news)) }
    ensures err { IfErr result (λ reason. (reason ≡ InvalidWorld) × (max_news < before + news)) }
{
    if World::NEWS - before < news {
        return Err(Reason::InvalidWorld);
    }
    Ok(before + news)
}

// The step's site, its row and its news added; 15 where there is no room for the row, then 17 of the news. The records that the step wrote do not
// matter here.
pub fn enter(head: Head, store: &mut [u8], next: usize, step: Step) -> Result<Change, Reason>
    requires { Ready head store.old }
    ensures { (own at : ℕ) (site : Site) (records : List Written) → Acts head own site (entry_of head at site result) store.new
        (λ w. enter w store.old at next own (record { step = stepped step; records = records })) }
{
    let Some(message) = step.sent else {
        return Ok(Change {
            site: step.site,
            rows: head.rows,
            news: add_news(head.news, step.news)?,
            next,
        });
    };
    if World::ROWS <= head.rows {
        return Err(Reason::StoreFull);
    }
    let news = add_news(head.news, step.news)?;
    row::put_row(store, head.rows, Row::from(message));
    Ok(Change {
        site: step.site,
        rows: head.rows + 1,
        news,
        next,
    })
}
