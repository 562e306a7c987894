// A list in the other edition.
// Two editions, so one `if` wherever they differ. n is cut to a byte, which its range is.
ghost use Rattle.std.specs.Prelude.{◌≡◌, ◌+◌, ◌≤◌, length, replicate};
ghost use Rattle.text.specs.Page.{HasRoom, Put};
ghost use Rattle.spelling.specs.Ranges.{HeaderInRange};
ghost use Rattle.conversion.specs.Conversion.{second_bytes, other_bytes, converted, edition_number};

use header::Header;
use spelling::put_pair;
use text::Page;

// A weight of 1 for each of n sites.
fn put_ones(page: &mut Page, n: usize)
    requires { HasRoom page.old n }
    ensures { Put page.old (replicate n 1) page.new }
{
    for _ in 0..n {
        page.put_byte(1);
    }
}

// A second-edition header put on a page, each site with a weight of 1.
fn put_second(page: &mut Page, header: Header)
    requires { HeaderInRange header × HasRoom page.old (8 + header.n) }
    ensures { Put page.old (second_bytes header) page.new }
{
    let commit = header.commit;
    let abort = header.abort;
    page.put_word(&[130, header.n as u8]);
    put_pair(page, commit.0);
    put_pair(page, abort.0);
    put_pair(page, header.willing);
    put_ones(page, header.n);
}

// The header in the other edition put on a page.
fn put_other(page: &mut Page, second: bool, header: Header)
    requires { HeaderInRange header × HasRoom page.old (length (other_bytes second header)) }
    ensures { Put page.old (other_bytes second header) page.new }
{
    if second {
        return spelling::put_header(page, header);
    }
    put_second(page, header);
}

// The length of a list in the other edition.
pub fn converted_length(list: &[u8]) -> usize
    requires { edition_number list.now ≡ 0 }
    ensures { result ≡ length (converted list.now) }
{
    let after = list.len() - header::header_length(list);
    if header::is_second(list) {
        return 5 + after;
    }
    8 + header::read_header(list).n + after
}

// The list in the other edition put on a page.
pub fn put_converted(page: &mut Page, list: &[u8])
    requires { (edition_number list.now ≡ 0) × HasRoom page.old (length (converted list.now)) }
    ensures { Put page.old (converted list.now) page.new }
{
    let first = header::header_length(list);
    put_other(page, header::is_second(list), header::read_header(list));
    page.put_word(&list[first..]);
}
