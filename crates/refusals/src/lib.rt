// Why a call is stopped, and where.
#![tactic(auto)]

ghost use Rattle.std.specs.Prelude.{◌≡◌};
ghost use Rattle.refusals.specs.Refusals.{number_of, at_beginning, by_number};

// The conditions that stop a call, each with its number.
#[derive(Clone, Copy, Debug, PartialEq, Eq)]
pub enum Reason {
    ListTooLong = 1,
    ListTooShort = 2,
    SiteCount = 3,
    QuorumSizes = 4,
    WillingSites = 5,
    NoCommand = 6,
    OperandsCut = 7,
    NoSuchSite = 8,
    NoSuchRow = 9,
    UnknownRow = 10,
    NotAddressed = 11,
    SiteDown = 12,
    SiteUp = 13,
    NotActive = 14,
    StoreFull = 15,
    StoreTooShort = 16,
    InvalidWorld = 17,
    ReportTooShort = 18,
    BadLine = 19,
    OutputTooShort = 20,
    InvalidWeights = 21,
    UnevenWeights = 22,
}

impl Reason {
    pub fn at(self, place: usize) -> Refusal
        ensures { result ≡ record { reason = self; place = place } }
    {
        Refusal {
            reason: self,
            place,
        }
    }
}

impl From<Reason> for u8 {
    ghost from_gives = { λ reason number. number ≡ number_of reason };

    #[tactic(auto, unfolding(crate::specs::Refusals::number_of))]
    fn from(reason: Reason) -> u8 {
        reason as u8
    }
}

impl From<Reason> for u32 {
    ghost from_gives = { λ reason number. number ≡ number_of reason };

    fn from(reason: Reason) -> u32 {
        u32::from(u8::from(reason))
    }
}

// The place is that of the command byte in a list, of the line's first byte in a text; 0 for what is said of the whole.
#[derive(Clone, Copy, Debug, PartialEq, Eq)]
pub struct Refusal {
    pub reason: Reason,
    pub place: usize,
}

impl From<Reason> for Refusal {
    ghost from_gives = { λ reason refusal. refusal ≡ at_beginning reason };

    fn from(reason: Reason) -> Refusal {
        reason.at(0)
    }
}

// A refusal told by its number, which may be any: what callers hand on may come from elsewhere.
#[derive(Clone, Copy, Debug, PartialEq, Eq)]
pub struct Numbered {
    pub number: u8,
    pub place: usize,
}

impl From<Refusal> for Numbered {
    ghost from_gives = { λ refusal numbered. numbered ≡ by_number refusal };

    fn from(refusal: Refusal) -> Numbered {
        Numbered {
            number: u8::from(refusal.reason),
            place: refusal.place,
        }
    }
}
