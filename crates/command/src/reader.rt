// The readers on a plain slice: one byte, and one command.
// What View hands on: a list and a place. A command is made of its byte, which is what a list holds, and of the bytes after it.
ghost use Rattle.std.specs.Prelude.{◌≡◌, ◌+◌, ◌<◌, ◌≤◌, IfOk, IfErr, length, get_or};
ghost use Rattle.command.specs.Commands.{target, cut, read_delivery, read_byte, read_command};

use crate::{Command, Delivery, Parsed, Target};
use refusals::{Reason, Refusal};

// The byte at a place of a list or a text; 0 past its end.
pub fn byte_of(list: &[u8], at: usize) -> usize
    ensures { (result ≡ get_or list.now at 0) × (result < 256) }
{
    list.get(at).map_or(0, |byte| usize::from(*byte))
}

// The site after a command byte.
#[tactic(auto, using(choice::specs::laws::ChoiceLaws::tests), unfolding(crate::specs::Commands::target))]
fn read_target(list: &[u8], at: usize) -> Result<Target, Refusal>
    requires { at < length list.now }
    ensures ok { IfOk result (λ t. (t ≡ target list.now at) × (at + 2 ≤ length list.now)) }
    ensures err { IfErr result (λ r. (r ≡ cut at) × (length list.now < at + 2)) }
{
    match list.get(at + 1) {
        Some(site) => Ok(Target {
            site: usize::from(*site),
        }),
        None => Err(Reason::OperandsCut.at(at)),
    }
}

// The row number has its low byte first.
#[tactic(auto, using(choice::specs::laws::ChoiceLaws::tests), unfolding(crate::specs::Commands::read_delivery, crate::specs::Commands::delivery, crate::specs::Commands::found, crate::specs::Commands::refused))]
fn read_delivery(list: &[u8], at: usize) -> Result<Parsed, Refusal>
    requires { at < length list.now }
    ensures { result ≡ read_delivery list.now at }
{
    let [low, high, site, ..] = &list[at + 1..] else {
        return Err(Reason::OperandsCut.at(at));
    };
    Ok(Parsed {
        command: Command::Deliver(Delivery {
            row: usize::from(u16::from_le_bytes([*low, *high])),
            site: usize::from(*site),
        }),
        next: at + 4,
    })
}

// By the command byte's value.
#[tactic(auto, using(choice::specs::laws::ChoiceLaws::tests), unfolding(crate::specs::Commands::read_byte, crate::specs::Commands::read_target, crate::specs::Commands::found, crate::specs::Commands::refused))]
fn read_byte(byte: u8, list: &[u8], at: usize) -> Result<Parsed, Refusal>
    requires { at < length list.now }
    ensures { result ≡ read_byte byte list.now at }
{
    let command = match byte {
        1 => {
            return Ok(Parsed {
                command: Command::Start,
                next: at + 1,
            });
        }
        2 => return read_delivery(list, at),
        3 => Command::Timeout(read_target(list, at)?),
        4 => Command::Crash(read_target(list, at)?),
        5 => Command::Recover(read_target(list, at)?),
        _ => {
            return Err(Reason::NoCommand.at(at));
        }
    };
    Ok(Parsed {
        command,
        next: at + 2,
    })
}

// The command at a place of a list.
#[tactic(auto, using(choice::specs::laws::ChoiceLaws::tests), unfolding(crate::specs::Commands::read_command, crate::specs::Commands::refused))]
pub fn read_at(list: &[u8], at: usize) -> Result<Parsed, Refusal>
    ensures { result ≡ read_command list.now at }
{
    match list.get(at) {
        Some(byte) => read_byte(*byte, list, at),
        None => Err(Reason::NoCommand.at(at)),
    }
}
