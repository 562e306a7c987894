// What the call offered to C for one site's step is made of: terms of 32 bytes, a site of 40, a row of 20 and a result of 8.
// C takes an answer as a number, 0 for an accepted call.
#![tactic(auto)]

ghost use Rattle.std.specs.Prelude.{◌≡◌, ◌≤◌, length};
ghost use Rattle.row.specs.Rows.{put_row_at};
ghost use Rattle.row.specs.Messages.{row_sent};
ghost use Rattle.layout.specs.Layout.{put_site};
ghost use Rattle.step_calls.specs.StepCalls.{member_at, terms_in_layout, step_fits, put_logged, step_call};

use layout::LAYOUT;
use member::{Logged, Member, Taken};
use refusals::Reason;
use row::Row;
use site::{AbortQuorum, CommitQuorum};

// The lengths of terms, site, row and result.
pub const TERMS_BYTES: usize = 32;

pub const SITE_BYTES: usize = 40;

pub const ROW_BYTES: usize = 20;

pub const RESULT_BYTES: usize = 8;

// Any bytes of any length.
#[tactic(auto, using(choice::specs::laws::ChoiceLaws::tests), unfolding(crate::specs::StepCalls::terms_in_layout))]
fn terms_in_layout(terms: &[u8]) -> bool
    ensures { result ≡ terms_in_layout terms.now }
{
    terms.len() == TERMS_BYTES
        && terms[0] == LAYOUT
        && inside::at_most(terms, 7, 1, 1)
        && inside::at_most(terms, 8, 8, 0)
}

// Every buffer has its length, and terms and site are inside the layout.
#[tactic(auto, using(choice::specs::laws::ChoiceLaws::tests), unfolding(crate::specs::StepCalls::step_fits))]
fn step_fits(terms: &[u8], site: &[u8], row: &[u8], res: &[u8]) -> bool
    ensures { result ≡ step_fits terms.now site.now row.now res.now }
{
    site.len() == SITE_BYTES
        && row.len() == ROW_BYTES
        && res.len() == RESULT_BYTES
        && terms_in_layout(terms)
        && inside::site_in_layout(site, 0)
}

// The member that the terms tell of.
#[tactic(auto, unfolding(crate::specs::StepCalls::member_at))]
fn member_at(terms: &[u8]) -> Member
    requires { 32 ≤ length terms.now }
    ensures { result ≡ member_at terms.now }
{
    Member {
        n: usize::from(terms[1]),
        weights: code_bytes::get_codes(terms, 16),
        commit: CommitQuorum(decode::word_at(terms, 2)),
        abort: AbortQuorum(decode::word_at(terms, 4)),
        own: usize::from(terms[6]),
        willing: terms[7] == 1,
    }
}

// The records written and the news, into the result: a store for each byte, since each is of another field.
#[tactic(auto, unfolding(crate::specs::StepCalls::put_logged, layout::specs::Layout::flag_byte))]
fn put_logged(res: &mut [u8], logged: Logged, news: usize)
    requires { length res.old ≡ 8 }
    ensures { res.new ≡ put_logged res.old logged news }
{
    res[0] = u8::from(logged.prepare);
    res[1] = u8::from(logged.group);
    res[2] = u8::from(logged.outcome);
    res[3] = 0;
    encode::put_number(res, 4, 4, news);
}

// An accepted step's site, row and result.
fn put_step(site: &mut [u8], row: &mut [u8], res: &mut [u8], taken: Taken)
    requires { (length site.old ≡ 40) × (length row.old ≡ 20) × (length res.old ≡ 8) }
    ensures site_after { site.new ≡ put_site site.old 0 taken.site }
    ensures row_after { row.new ≡ put_row_at row.old 0 (row_sent taken.sent) }
    ensures res_after { res.new ≡ put_logged res.old taken.logged taken.news }
{
    encode::put_site(site, 0, taken.site);
    row::put_row_at(row, 0, Row::from(taken.sent));
    put_logged(res, taken.logged, taken.news);
}

// One site's step. A refused step leaves every buffer.
pub fn step_call(
    terms: &[u8],
    site: &mut [u8],
    command: &[u8],
    row: &mut [u8],
    res: &mut [u8],
) -> u32
    ensures value { result ≡ (step_call terms.now site.old command.now row.old res.old).number }
    ensures site_after { site.new ≡ (step_call terms.now site.old command.now row.old res.old).site }
    ensures row_after { row.new ≡ (step_call terms.now site.old command.now row.old res.old).row }
    ensures res_after { res.new ≡ (step_call terms.now site.old command.now row.old res.old).result }
{
    if !step_fits(terms, site, row, res) {
        return u32::from(Reason::InvalidWorld);
    }
    match member_step::site_step(member_at(terms), decode::site_at(site, 0), command) {
        Ok(taken) => {
            put_step(site, row, res, taken);
            0
        }
        Err(reason) => u32::from(reason),
    }
}
