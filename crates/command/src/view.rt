// The view of the caller's list with a place in it, and the thin functions over it through which its commands and its header are read.
// `byte_in` leaves its work to `byte_of`, and `command_in` to `read_at`, which take the slice and the place as plain parameters.
// Document 01 has View; callers have `byte_at` and `read_command`, with a list and a place as plain parameters, and 0 past the end.
ghost use Rattle.std.specs.Prelude.{◌≡◌, ◌<◌, get_or};
ghost use Rattle.command.specs.Commands.{read_command, refusal_of, refusal_at};

use crate::Parsed;
use crate::reader::{byte_of, read_at};
use refusals::Refusal;

#[derive(Drop)]
pub struct View<'a> {
    pub list: &'a [u8],
    pub at: usize,
}

pub fn look_at<'a>(list: &'a [u8], at: usize) -> View<'a>
    ensures { (result.list ≡ list.entry) × (result.at ≡ at) }
{
    View { list, at }
}

// The byte at the view's place; 0 past the list's end.
pub fn byte_in<'a>(v: View<'a>) -> usize
    ensures { (result ≡ get_or v.entry.list.now v.entry.at 0) × (result < 256) }
{
    byte_of(v.list, v.at)
}

// The byte at a place of a list or a text; 0 past its end. Its parameters are plain.
pub fn byte_at(list: &[u8], at: usize) -> usize
    ensures { (result ≡ get_or list.now at 0) × (result < 256) }
{
    byte_in(look_at(list, at))
}

// The command at the view's place: the answer itself, and which number and place it stands for.
pub fn command_in<'a>(v: View<'a>) -> Result<Parsed, Refusal>
    ensures { (result ≡ read_command v.entry.list.now v.entry.at) × (refusal_of result ≡ refusal_at v.entry.list.now v.entry.at) }
{
    read_at(v.list, v.at)
}

// The command at a place of a list.
pub fn read_command(list: &[u8], at: usize) -> Result<Parsed, Refusal>
    ensures { (result ≡ read_command list.now at) × (refusal_of result ≡ refusal_at list.now at) }
{
    command_in(look_at(list, at))
}
