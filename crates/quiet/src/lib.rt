// The list of a quiet day.
#![tactic(auto)]

mod exchange;

ghost use Rattle.std.specs.Prelude.{◌≡◌, ◌+◌, ◌-◌, ◌*◌, ◌≤◌, length};
ghost use Rattle.text.specs.Page.{HasRoom, Put};
ghost use Rattle.spelling.specs.Answers.{answer_of};
ghost use Rattle.spelling.specs.Ranges.{HeaderInRange};
ghost use Rattle.quiet.specs.QuietList.{quiet_header, quiet_list, write_quiet};

use command::{Command, Target};
use exchange::put_exchange;
use header::Header;
use refusals::{Reason, Refusal};
use site::{AbortQuorum, CommitQuorum};
use spelling::Spelled;
use text::Page;
use world::{Sizes, World};

// The whole list put on a page.
fn put_quiet(page: &mut Page, n: usize, commit: CommitQuorum, abort: AbortQuorum)
    requires { (1 ≤ n) × (n ≤ 16) × HeaderInRange (quiet_header n commit abort) × HasRoom page.old (10 + 24 * (n - 1)) }
    ensures { Put page.old (quiet_list n commit abort) page.new }
{
    let header = Header {
        n,
        commit,
        abort,
        willing: bits::every_site(n),
    };
    let others = n - 1;
    let wait = Command::Timeout(Target { site: 0 });
    spelling::put_header(page, header);
    put_exchange(page, Command::Start, 0, others);
    put_exchange(page, wait, n, others);
    put_exchange(page, wait, 2 * n, others);
}

// WRITING THE QUIET DAY, from the buffer's beginning; 3 or 4, then 20, and the buffer untouched.
pub fn write_quiet(
    n: usize,
    commit: CommitQuorum,
    abort: AbortQuorum,
    buffer: &mut [u8],
) -> Result<Spelled, Refusal>
    ensures value { answer_of result ≡ (write_quiet n commit abort buffer.old).answer }
    ensures buffer_after { buffer.new ≡ (write_quiet n commit abort buffer.old).buffer }
{
    if World::SITES < n {
        return Err(Reason::SiteCount.into());
    }
    let sizes = Sizes {
        n,
        weights: weights::even_weights(n),
        commit,
        abort,
        willing: bits::every_site(n),
    };
    sizes.check()?;
    // 5 bytes of header, 5 of START and two TIMEOUTs, and six deliveries of 4 for each other site
    let length = 10 + 24 * (n - 1);
    if buffer.len() < length {
        return Err(Reason::OutputTooShort.into());
    }
    put_quiet(&mut Page::new(buffer), n, commit, abort);
    Ok(Spelled { place: 0, length })
}
