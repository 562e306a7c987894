// The text that the player prints.
ghost use Rattle.std.specs.Prelude.{◌≡◌, ◌≤◌, length};
ghost use Rattle.refusals.specs.Refusals.{stop_number};
ghost use Rattle.list.specs.Play.{ended};
ghost use Rattle.text.specs.laws.Written.{Written};
ghost use Rattle.lines.specs.Lines.{last_line};
ghost use Rattle.player.specs.Shown.{is_header_number, shown_buffer, shown_length};

use list::ListPlayed;
use refusals::Reason;
use text::Page;

// A number of length or header, asked of the number that the report is told: six reasons named would be longer than a range.
#[tactic(auto, using(choice::specs::laws::ChoiceLaws::tests), unfolding(crate::specs::Shown::is_header_number))]
fn is_header_number(number: u8) -> bool
    ensures { result ≡ is_header_number number }
{
    number == 21 || (1..=5).contains(&number)
}

// The number of a stop, 0 for none.
fn number_of(stop: Option<Reason>) -> u8
    ensures { result ≡ stop_number stop }
{
    match stop {
        Some(reason) => u8::from(reason),
        None => 0,
    }
}

// The line of a refusal of the whole; its length.
fn show_refusal(number: u8, buffer: &mut [u8]) -> usize
    requires { 25 ≤ length buffer.old }
    ensures written { Written buffer.old 0 (last_line number 0) buffer.new result }
    ensures upper_bound { result ≤ 25 }
{
    let mut page = Page::new(buffer);
    lines::put_last(&mut page, usize::from(number), 0);
    page.at
}

// For 1 to 5 and 21 the refusal line alone, otherwise the report; its length.
pub fn show(played: ListPlayed, buffer: &mut [u8]) -> usize
    requires { 1024 ≤ length buffer.old }
    ensures buffer_after { buffer.new ≡ shown_buffer (ended played) buffer.old }
    ensures value { result ≡ shown_length (ended played) buffer.old }
    ensures upper_bound { result ≤ length buffer.old }
{
    let number = number_of(played.stop);
    if is_header_number(number) {
        return show_refusal(number, buffer);
    }
    let world = played.world;
    match report::write_report(world, played.events, number, played.place, buffer) {
        Ok(length) => length,
        Err(_) => 0,
    }
}
