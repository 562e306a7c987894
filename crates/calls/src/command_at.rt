// One command on a world that lies in bytes: one site is read, and that site, the row count and the news are written back.
// Its form is that of the call: buffers of C, a place in the list, an answer as a number.
ghost use Rattle.std.specs.Prelude.{◌≡◌, ◌≤◌, length};
ghost use Rattle.play.specs.laws.Changes.{head_of};
ghost use Rattle.layout.specs.Layout.{world_at};
ghost use Rattle.calls.specs.Calls.{command_call};
ghost use Rattle.calls.specs.laws.CommandLaws.{Playable};

use play::Head;

// The world without its sites.
#[tactic(auto, unfolding(play::specs::laws::Changes::head_of, layout::specs::Layout::world_at))]
fn head_at(world: &[u8]) -> Head
    requires { 672 ≤ length world.now }
    ensures { result ≡ head_of (world_at world.now) }
{
    Head {
        sizes: decode::sizes_at(world),
        rows: decode::word_at(world, 8),
        news: decode::long_at(world, 10),
    }
}

// The command at a place of the list, where 16 and 17 have been asked.
pub fn play_at(world: &mut [u8], store: &mut [u8], list: &[u8], at: usize, res: &mut [u8]) -> u32
    requires { Playable world.old store.old res.old }
    ensures value { result ≡ (command_call world.old store.old list.now at res.old).number }
    ensures store_after { store.new ≡ (command_call world.old store.old list.now at res.old).store }
    ensures world_after { world.new ≡ (command_call world.old store.old list.now at res.old).world }
    ensures res_after { res.new ≡ (command_call world.old store.old list.now at res.old).result }
{
    let reading = command::read_command(list, at);
    let head = head_at(world);
    let own = play::actor(reading, head.sizes.n);
    let site = decode::site_at(world, layout::site_place(own));
    match act::act(reading, head, site, store, at) {
        Ok(change) => {
            encode::put_change(world, own, change.site, change.rows, change.news);
            encode::put_number(res, 0, 8, change.next);
            0
        }
        Err(refusal) => u32::from(refusal.reason),
    }
}
