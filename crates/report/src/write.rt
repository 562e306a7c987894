// The report call.
ghost use Rattle.std.specs.Prelude.{◌≡◌, true, ◌+◌, ◌<◌, ◌≤◌, length};
ghost use Rattle.text.specs.Page.{HasRoom, Put};
ghost use Rattle.report.specs.Report.{report_text, report_valid, reported_of, report};

use crate::LAST_NUMBER;
use lines::{put_last, put_sites, put_sizes};
use refusals::Reason;
use text::Page;
use world::World;

// What 17 asks of the report's values.
#[tactic(auto, using(choice::specs::laws::ChoiceLaws::tests), unfolding(crate::specs::Report::report_valid))]
fn report_valid(world: World, events: usize, number: usize, place: usize) -> bool
    ensures { result ≡ report_valid world events number place }
{
    validity::valid_world(world)
        && events <= World::LIST_BYTES
        && place <= World::LIST_BYTES
        && number <= LAST_NUMBER
}

// The whole text put on a page.
fn put_text(page: &mut Page, world: World, events: usize, number: usize, place: usize)
    requires { (report_valid world events number place ≡ true) × HasRoom page.old 1024 }
    ensures put { Put page.old (report_text world events number place) page.new }
    ensures upper_bound { page.new.at ≤ page.old.at + 1024 }
{
    put_sizes(page, world, events);
    put_sites(page, world);
    put_last(page, number, place);
}

// The stop is a number, 0 for the list's end, since a caller may hand in any byte.
// THE REPORT: the text from the buffer's beginning, or 17 or 18 and the buffer untouched; the text's length.
pub fn write_report(
    world: World,
    events: usize,
    number: u8,
    place: usize,
    buffer: &mut [u8],
) -> Result<usize, Reason>
    ensures value { reported_of result ≡ (report world events number place buffer.old).reported }
    ensures buffer_after { buffer.new ≡ (report world events number place buffer.old).buffer }
    ensures length_in_bounds { (reported_of result).length ≤ length buffer.old }
{
    let number = usize::from(number);
    if !report_valid(world, events, number, place) {
        return Err(Reason::InvalidWorld);
    }
    if buffer.len() < World::REPORT_BYTES {
        return Err(Reason::ReportTooShort);
    }
    let mut page = Page::new(buffer);
    put_text(&mut page, world, events, number, place);
    Ok(page.at)
}
