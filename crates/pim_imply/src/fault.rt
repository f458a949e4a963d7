ghost use Rattle.std.specs.Prelude.{◌≡◌};
ghost use Rattle.pim_imply.specs.declared.fault.ImplyFault.TheVariants as faults;

use crate::invalid::ImplyInvalid;
use pim_io::NoMemory;
use pim_text::TextFault;
use thiserror::Error;

/// Why bytes are not the text of a program: the first that holds of `Line`, `Truncated`, `TooLarge` and `Invalid`. Lines are
/// counted from 1.
#[derive(Clone, Copy, Debug, PartialEq, Eq, Error)]
pub enum ImplyFault {
    /// This line is the first that may not stand where it stands, or is not spelled as it is to be.
    #[error("a line is wrong")]
    Line(u32),
    /// The draft that the text says has this first fault.
    #[error("the program is not valid")]
    Invalid(ImplyInvalid),
    /// The program has more than `MAX_CELLS` cells.
    #[error("there are too many cells")]
    TooLarge,
    /// No line is wrong, and the bytes end before the line `end`.
    #[error("the bytes end too early")]
    Truncated,
    /// There was no memory.
    #[error("no memory")]
    NoMemory,
}

impl From<NoMemory> for ImplyFault {
    ghost from_gives = { λ _ fault. fault ≡ faults.NoMemory };

    fn from(_error: NoMemory) -> ImplyFault {
        ImplyFault::NoMemory
    }
}

impl From<ImplyInvalid> for ImplyFault {
    ghost from_gives = { λ invalid fault. fault ≡ faults.Invalid invalid };

    fn from(invalid: ImplyInvalid) -> ImplyFault {
        ImplyFault::Invalid(invalid)
    }
}

impl From<TextFault> for ImplyFault {
    ghost use Rattle.pim_imply.specs.Reading.{imply_fault};

    ghost from_gives = { λ text fault. fault ≡ imply_fault text };

    fn from(fault: TextFault) -> ImplyFault {
        match fault {
            TextFault::Line(number) => ImplyFault::Line(number),
            TextFault::TooLarge => ImplyFault::TooLarge,
            TextFault::Truncated => ImplyFault::Truncated,
            TextFault::NoMemory => ImplyFault::NoMemory,
        }
    }
}
