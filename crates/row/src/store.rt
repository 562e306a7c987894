// A row's twenty bytes, at any place and in the store.
// The store is a buffer of C: twenty bytes a row, and it may be longer. A row of zeros is what C is handed for none.
ghost use Rattle.std.specs.Prelude.{◌≡◌, ◌+◌, ◌<◌, ◌≤◌, length};
ghost use Rattle.row.specs.Rows.{no_row, put_head, put_row_at, put_row, row_at, get_row, row_place};

use crate::Row;
use code_bytes::{get_codes, put_codes};

#[tactic(auto, unfolding(crate::specs::Rows::no_row))]
pub fn no_row() -> Row
    ensures { result ≡ no_row }
{
    Row {
        kind: 0,
        sender: 0,
        destinations: 0,
        codes: [0; 16],
    }
}

// Where row k lies.
#[tactic(auto, unfolding(crate::specs::Rows::row_place))]
fn row_place(k: usize) -> usize
    requires { k ≤ 1024 }
    ensures { result ≡ row_place k }
{
    20 * k
}

#[tactic(auto, unfolding(crate::specs::Rows::put_head))]
fn put_head(store: &mut [u8], at: usize, row: Row)
    requires { at + 4 ≤ length store.old }
    ensures { store.new ≡ put_head store.old at row }
{
    let [low, high] = ((row.destinations % 65536) as u16).to_le_bytes();
    store[at] = row.kind;
    store[at + 1] = (row.sender % 256) as u8;
    store[at + 2] = low;
    store[at + 3] = high;
}

// The row written at a place.
#[tactic(auto, unfolding(crate::specs::Rows::put_row_at))]
pub fn put_row_at(bytes: &mut [u8], at: usize, row: Row)
    requires { at + 20 ≤ length bytes.old }
    ensures { bytes.new ≡ put_row_at bytes.old at row }
{
    put_head(bytes, at, row);
    let codes = row.codes;
    put_codes(bytes, at + 4, codes);
}

// The row that lies at a place.
#[tactic(auto, unfolding(crate::specs::Rows::row_at))]
pub fn row_at(bytes: &[u8], at: usize) -> Row
    requires { at + 20 ≤ length bytes.now }
    ensures { result ≡ row_at bytes.now at }
{
    let codes = get_codes(bytes, at + 4);
    Row {
        kind: bytes[at],
        sender: usize::from(bytes[at + 1]),
        destinations: usize::from(u16::from_le_bytes([bytes[at + 2], bytes[at + 3]])),
        codes,
    }
}

// The row written as row k.
#[tactic(auto, unfolding(crate::specs::Rows::put_row, crate::specs::Rows::row_place))]
pub fn put_row(store: &mut [u8], k: usize, row: Row)
    requires { (k < 1024) × (20480 ≤ length store.old) }
    ensures { store.new ≡ put_row store.old k row }
{
    put_row_at(store, row_place(k), row);
}

// Row k of the store.
#[tactic(auto, unfolding(crate::specs::Rows::get_row, crate::specs::Rows::row_place))]
pub fn get_row(store: &[u8], k: usize) -> Row
    requires { (k < 1024) × (20480 ≤ length store.now) }
    ensures { result ≡ get_row store.now k }
{
    row_at(store, row_place(k))
}
