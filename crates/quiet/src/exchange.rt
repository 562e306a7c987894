// A command of site 0, to every other site, and all replies.
ghost use Rattle.std.specs.Prelude.{ℕ, ◌≡◌, ◌+◌, ◌*◌, ◌<◌, ◌≤◌, length};
ghost use Rattle.text.specs.Page.{HasRoom, Put};
ghost use Rattle.command.specs.declared.Delivery.{Delivery};
ghost use Rattle.spelling.specs.Spelling.{command_bytes};
ghost use Rattle.spelling.specs.Ranges.{InRange};
ghost use Rattle.quiet.specs.Quiet.{replies_after, exchange};
ghost use Rattle.quiet.specs.laws.QuietLaws.{Delivers, bytes, each};

use command::{Command, Delivery};
use spelling::put_command;
use text::Page;

// A delivery for each of the other sites, from the first on, by a rule.
fn put_each<F: Fn(usize) -> Delivery>(page: &mut Page, others: usize, delivery: F)
    requires callable { (k : ℕ) → k ≤ others → F.pre delivery k }
    requires in_range { (k : ℕ) (d : Delivery) → k ≤ others → F.post delivery k d → (d.row < 65536) × (d.site < 256) }
    requires room { HasRoom page.old (4 * others) }
    ensures put { (rule : ℕ → Command) → Delivers (F.post delivery) rule → Put page.old (bytes (each rule others)) page.new }
    ensures value { page.new.at ≡ page.old.at + 4 * others }
    ensures length_kept { length page.new.buffer.now ≡ length page.old.buffer.now }
{
    for k in 0..others {
        put_command(page, Command::Deliver(delivery(k + 1)));
    }
}

// What makes site 0 send the row, the row to the other sites, and their replies.
pub fn put_exchange(page: &mut Page, opening: Command, row: usize, others: usize)
    requires { InRange opening × (row + others < 65536) × (others < 256) × HasRoom page.old (length (command_bytes opening) + 8 * others) }
    ensures put { Put page.old (bytes (exchange replies_after opening row others)) page.new }
    ensures value { page.new.at ≡ page.old.at + length (command_bytes opening) + 8 * others }
{
    put_command(page, opening);
    put_each(page, others, |k| Delivery { site: k, row });
    put_each(
        page,
        others,
        |k| Delivery {
            site: 0,
            row: row + k,
        },
    );
}
