// What the programs print of a call that writes a list or its lines.
#![tactic(auto)]

ghost use Rattle.std.specs.Prelude.{◌≡◌, ◌<◌, ◌≤◌, length};
ghost use Rattle.spelled_out.specs.Shown.{answer_numbered, shown_buffer, shown_length};

use refusals::Numbered;
use spelling::Spelled;
use text::Page;

// The call's output, or the refusal's line in its place; its length. The number may be any: of 0, which refuses nothing, nothing is shown.
pub fn shown(spelled: Result<Spelled, Numbered>, buffer: &mut [u8]) -> usize
    requires { ((answer_numbered spelled).length ≤ length buffer.old) × ((answer_numbered spelled).place < 1000000) × (25 ≤ length buffer.old) }
    ensures buffer_after { buffer.new ≡ shown_buffer (answer_numbered spelled) buffer.old }
    ensures value { result ≡ shown_length (answer_numbered spelled) }
    ensures upper_bound { result ≤ length buffer.old }
{
    match spelled {
        Ok(spelled) => spelled.length,
        Err(refusal) => {
            if refusal.number == 0 {
                return 0;
            }
            let number = usize::from(refusal.number);
            let mut page = Page::new(buffer);
            lines::put_last(&mut page, number, refusal.place);
            page.at
        }
    }
}
