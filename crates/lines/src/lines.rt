// The report's lines.
ghost use Rattle.std.specs.Prelude.{◌≡◌, true, ◌+◌, ◌<◌, ◌≤◌, ◌++◌, length};
ghost use Rattle.text.specs.Text.{text, decimal, named};
ghost use Rattle.text.specs.Page.{HasRoom, Put};
ghost use Rattle.vector.specs.Vector.{valid_vector};
ghost use Rattle.site.specs.State.{state_of};
ghost use Rattle.world.specs.Valid.{valid_world};
ghost use Rattle.lines.specs.Lines.{up_word, role_word, state_word, sizes_line, site_line, site_lines, last_line};

use crate::log::{put_codes, put_log};
use crate::words::{put_role, put_state, put_up};
use site::Site;
use text::Page;
use world::World;

// The sizes.
fn put_quorums(page: &mut Page, world: World)
    requires { (valid_world world ≡ true) × HasRoom page.old 39 }
    ensures put { Put page.old
        (named "sites " world.n ++ named " commit " world.commit.0 ++ named " abort " world.abort.0)
        page.new }
    ensures upper_bound { page.new.at ≤ page.old.at + 39 }
{
    let commit = world.commit;
    let abort = world.abort;
    page.put_named(b"sites ", world.n);
    page.put_named(b" commit ", commit.0);
    page.put_named(b" abort ", abort.0);
}

// Sizes, accepted events, rows, news (room for six digits each).
pub fn put_sizes(page: &mut Page, world: World, events: usize)
    requires { (valid_world world ≡ true) × (events ≤ 32768) × HasRoom page.old 78 }
    ensures put { Put page.old (sizes_line world events) page.new }
    ensures upper_bound { page.new.at ≤ page.old.at + 78 }
{
    put_quorums(page, world);
    page.put_named(b" events ", events);
    page.put_named(b" rows ", world.rows);
    page.put_named(b" news ", world.news);
    page.put_byte(b'\n');
}

// Number (room for two digits), up or down, role, state.
fn put_standing(page: &mut Page, i: usize, site: Site)
    requires { (i < 16) × HasRoom page.old 33 }
    ensures put { Put page.old
        (decimal i ++ text (up_word site.up) ++ text (role_word site.coordinator) ++ text (state_word (state_of site)))
        page.new }
    ensures upper_bound { page.new.at ≤ page.old.at + 33 }
{
    let state = site.state();
    page.put_decimal(i);
    put_up(page, site.up);
    put_role(page, site.coordinator);
    put_state(page, state);
}

// A site's line: its standing, log, n codes.
fn put_site(page: &mut Page, i: usize, n: usize, site: Site)
    requires { (i < 16) × (n ≤ 16) × (valid_vector n site.codes ≡ true) × HasRoom page.old 54 }
    ensures put { Put page.old (site_line i n site) page.new }
    ensures upper_bound { page.new.at ≤ page.old.at + 54 }
{
    let codes = site.codes;
    put_standing(page, i, site);
    put_log(page, site);
    page.put_byte(b' ');
    put_codes(page, n, codes);
    page.put_byte(b'\n');
}

// One line a site.
pub fn put_sites(page: &mut Page, world: World)
    requires { (valid_world world ≡ true) × HasRoom page.old 864 }
    ensures put { Put page.old (site_lines world.n world) page.new }
    ensures upper_bound { page.new.at ≤ page.old.at + 864 }
{
    for k in 0..world.n {
        put_site(page, k, world.n, world.site(k));
    }
}

// The end place, or the refusal with its place; the number is any below 1,000,000, and 0 for the end.
pub fn put_last(page: &mut Page, number: usize, place: usize)
    requires { (number < 1000000) × (place < 1000000) × HasRoom page.old 25 }
    ensures put { Put page.old (last_line number place) page.new }
    ensures upper_bound { page.new.at ≤ page.old.at + 25 }
{
    if number == 0 {
        page.put_named(b"end ", place);
        return page.put_byte(b'\n');
    }
    page.put_named(b"refused ", number);
    page.put_named(b" at ", place);
    page.put_byte(b'\n');
}
