ghost use Rattle.std.specs.Prelude.{◌≡◌};
ghost use Rattle.pim_text.specs.declared.fault.TextFault.TheVariants as faults;

use pim_io::NoMemory;
use thiserror::Error;

/// Why bytes are not the text of a program. Lines are counted from 1.
#[derive(Clone, Copy, Debug, PartialEq, Eq, Error)]
pub enum TextFault {
    /// This line is the first that may not stand where it stands, or is not spelled as it is to be.
    #[error("a line is wrong")]
    Line(u32),
    /// The program has more than `MAX_CELLS` cells.
    #[error("there are too many cells")]
    TooLarge,
    /// The bytes end before the line `end`.
    #[error("the bytes end too early")]
    Truncated,
    /// An allocation was refused.
    #[error("no memory")]
    NoMemory,
}

impl From<NoMemory> for TextFault {
    ghost from_gives = { λ _ fault. fault ≡ faults.NoMemory };

    fn from(_error: NoMemory) -> TextFault {
        TextFault::NoMemory
    }
}
