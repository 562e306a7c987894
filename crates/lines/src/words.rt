// The words of a site's line.
// One function for up and role would be handed at one call each the two words that stand here.
ghost use Rattle.std.specs.Prelude.{◌+◌, ◌≤◌, length};
ghost use Rattle.text.specs.Text.{text};
ghost use Rattle.text.specs.Page.{HasRoom, Put};
ghost use Rattle.lines.specs.Lines.{up_word, role_word, state_word};

use site::State;
use text::Page;

pub fn put_up(page: &mut Page, up: bool)
    requires { HasRoom page.old 6 }
    ensures put { Put page.old (text (up_word up)) page.new }
    ensures upper_bound { page.new.at ≤ page.old.at + 6 }
{
    if up {
        page.put_word(b" up ");
    } else {
        page.put_word(b" down ");
    }
}

pub fn put_role(page: &mut Page, coordinator: bool)
    requires { HasRoom page.old 12 }
    ensures put { Put page.old (text (role_word coordinator)) page.new }
    ensures upper_bound { page.new.at ≤ page.old.at + 12 }
{
    if coordinator {
        page.put_word(b"coordinator ");
    } else {
        page.put_word(b"subordinate ");
    }
}

pub fn put_state(page: &mut Page, state: State)
    requires { HasRoom page.old 13 }
    ensures put { Put page.old (text (state_word state)) page.new }
    ensures upper_bound { page.new.at ≤ page.old.at + 13 }
{
    match state {
        State::Active => page.put_word(b"active "),
        State::Prepared => page.put_word(b"prepared "),
        State::CommitGroup => page.put_word(b"commit-group "),
        State::AbortGroup => page.put_word(b"abort-group "),
        State::Committed => page.put_word(b"committed "),
        State::Aborted => page.put_word(b"aborted "),
    }
}
