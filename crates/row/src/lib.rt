// A row, and its twenty bytes in the store.
#![tactic(auto)]

mod message;
mod store;

pub use message::{Kind, Message};
pub use store::{get_row, no_row, put_row, put_row_at, row_at};

// Kind, sender, destinations as 16 bits, and the sender's vector after the step. Kind 0: no row.
// The kind and the codes are bytes and no enums, since a store can hold any byte there and `get_row` tells of each: 10 refuses the others.
#[derive(Clone, Copy)]
pub struct Row {
    pub kind: u8,
    pub sender: usize,
    pub destinations: usize,
    pub codes: [u8; 16],
}
