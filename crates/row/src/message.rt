// What a site sends. Its row is what is kept of it.
ghost use Rattle.std.specs.Prelude.{◌≡◌};
ghost use Rattle.row.specs.Messages.{kind_number, Names, row_of, row_sent};

use crate::{Row, no_row};

#[derive(Clone, Copy, Debug, PartialEq, Eq)]
pub enum Kind {
    Prepare = 1,
    Vote = 2,
    JoinCommit = 3,
    JoinAbort = 4,
    InGroup = 5,
    Outcome = 6,
    OutcomeAck = 7,
}

impl From<Kind> for u8 {
    ghost from_gives = { λ kind number. number ≡ kind_number kind };

    fn from(kind: Kind) -> u8 {
        kind as u8
    }
}

// A number that names no kind.
#[derive(Clone, Copy, Debug, PartialEq, Eq)]
pub struct UnknownKind(pub u8);

impl TryFrom<u8> for Kind {
    type Error = UnknownKind;

    ghost try_from_gives = { Names };

    fn try_from(number: u8) -> Result<Kind, UnknownKind> {
        match number {
            1 => Ok(Kind::Prepare),
            2 => Ok(Kind::Vote),
            3 => Ok(Kind::JoinCommit),
            4 => Ok(Kind::JoinAbort),
            5 => Ok(Kind::InGroup),
            6 => Ok(Kind::Outcome),
            7 => Ok(Kind::OutcomeAck),
            _ => Err(UnknownKind(number)),
        }
    }
}

// A message: its kind, its sender, the sites that it goes to as bits, and the sender's vector after the step.
#[derive(Clone, Copy)]
pub struct Message {
    pub kind: Kind,
    pub sender: usize,
    pub destinations: usize,
    pub codes: [u8; 16],
}

impl From<Message> for Row {
    ghost from_gives = { λ message row. row ≡ row_of message };

    fn from(message: Message) -> Row {
        let codes = message.codes;
        Row {
            kind: u8::from(message.kind),
            sender: message.sender,
            destinations: message.destinations,
            codes,
        }
    }
}

impl From<Option<Message>> for Row {
    ghost from_gives = { λ sent row. row ≡ row_sent sent };

    fn from(sent: Option<Message>) -> Row {
        match sent {
            Some(message) => Row::from(message),
            None => no_row(),
        }
    }
}
