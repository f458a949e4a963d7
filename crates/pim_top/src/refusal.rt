//! Why a call ended before all was written.
ghost use Rattle.std.specs.Prelude.{◌≡◌};
ghost use Rattle.pim_top.specs.Statuses.{refusal_status};
ghost use Rattle.pim_top.specs.declared.refusal.Refusal.TheVariants as refusals;

use crate::Status;
use crate::judgement::Judgement;
use pim_io::{NoMemory, SinkFault};

/// A source that a command reads.
#[derive(Clone, Copy, Debug, PartialEq, Eq)]
pub enum Origin {
    Program,
    Input,
}

/// Why a call ended before all was written: for its words, for the outside, or for what the bytes say.
#[derive(Debug, Drop)]
pub enum Refusal {
    /// The words are no command.
    Usage,
    /// Memory ran out.
    NoMemory,
    /// This source could not be read, and counted it.
    ReadFault(Origin),
    /// This source has more bytes than are read.
    TooLong(Origin),
    /// The output could not be written, and counted it.
    WriteFault,
    /// The bytes are refused.
    Judged(Judgement),
}

impl Refusal {
    /// The status that a call with this refusal ends with.
    pub fn status(&self) -> Status
        ensures { result ≡ refusal_status self.now }
    {
        match self {
            Refusal::Usage => Status::Usage,
            Refusal::NoMemory => Status::NoMemory,
            Refusal::ReadFault(_) => Status::ReadFault,
            Refusal::TooLong(_) => Status::TooLarge,
            Refusal::WriteFault => Status::WriteFault,
            Refusal::Judged(judgement) => judgement.status(),
        }
    }
}

impl From<Judgement> for Refusal {
    ghost from_gives = { λ judgement refusal. refusal ≡ refusals.Judged judgement };

    fn from(judgement: Judgement) -> Refusal {
        Refusal::Judged(judgement)
    }
}

impl From<NoMemory> for Refusal {
    ghost from_gives = { λ _ refusal. refusal ≡ refusals.NoMemory };

    fn from(_error: NoMemory) -> Refusal {
        Refusal::NoMemory
    }
}

impl From<SinkFault> for Refusal {
    ghost from_gives = { λ _ refusal. refusal ≡ refusals.WriteFault };

    fn from(_error: SinkFault) -> Refusal {
        Refusal::WriteFault
    }
}
