ghost use Rattle.std.specs.Prelude.{◌≡◌};
ghost use Rattle.pim_blif.specs.declared.fault.BlifFault.TheVariants as faults;

use pim_io::{Name, NoMemory};
use pim_net::{Kind, Names, NetFault};
use std::alloc::{AllocError, AllocFailed};
use thiserror::Error;

/// Why bytes are no BLIF netlist: the first statement that breaks a rule, by the number of its first line, from 1; or what
/// the netlist as a whole breaks.
#[derive(Debug, Drop, Error)]
pub enum BlifFault {
    /// The statement of this line may not stand where it stands, or its words are of another shape.
    #[error("a line has another shape")]
    Syntax(u32),
    /// The directive of this line is not supported, or not at this place; its label.
    #[error("a directive is not supported")]
    Unsupported(u32, Name),
    /// The row of this line is not as long as its cover has columns.
    #[error("a row has another width than its cover")]
    RowWidth(u32),
    /// The row of this line has another output character than the first row of its cover.
    #[error("a cover has both output characters")]
    MixedPhase(u32),
    /// The line names an input that is one already.
    #[error("an input is declared twice")]
    TwiceInput(u32),
    /// The netlist is not well-formed; the labels of the signals that the fault names.
    #[error("the netlist is not well-formed")]
    Net(NetFault, Names),
    /// A line brings more signals or outputs than their limits, or a name of more than `MAX_NAME` bytes.
    #[error("a count passes its limit")]
    TooLarge(Kind),
    /// An allocation was refused.
    #[error("no memory")]
    NoMemory,
}

impl From<NoMemory> for BlifFault {
    ghost from_gives = { λ _ fault. fault ≡ faults.NoMemory };

    fn from(_error: NoMemory) -> BlifFault {
        BlifFault::NoMemory
    }
}

impl From<AllocError> for BlifFault {
    ghost from_gives = { λ _ fault. fault ≡ faults.NoMemory };

    fn from(_error: AllocError) -> BlifFault {
        BlifFault::NoMemory
    }
}

impl<T: Drop> From<AllocFailed<T>> for BlifFault {
    ghost from_gives = { λ _ fault. fault ≡ faults.NoMemory };

    fn from(_error: AllocFailed<T>) -> BlifFault {
        BlifFault::NoMemory
    }
}
