use pim_file::FileFault;
use pim_io::NoMemory;
use std::alloc::AllocFailed;
use thiserror::Error;

/// Why a file is not programs one after another. The first piece at fault is told, with its first fault.
#[derive(Clone, Copy, Debug, PartialEq, Eq, Error)]
pub enum ManyFault {
    /// This piece, counted from 0, is the first that is no text of a program, and why. A piece goes to its line `end`, the last
    /// one to the end of the file.
    #[error("a piece is no program")]
    Part { part: u32, fault: FileFault },
    /// There was no memory.
    #[error("no memory")]
    NoMemory,
}

/// Why programs can't share a row: the first of these faults, in this order. Parts and turns are counted from 0.
#[derive(Clone, Copy, Debug, PartialEq, Eq, Error)]
pub enum ShareFault {
    /// This part is the first whose target is not that of the first part.
    #[error("a part is for another target")]
    OtherTarget(u32),
    /// The parts have more cells in all than the budget.
    #[error("there are too few cells")]
    TooFewCells {
        /// How many cells they have.
        needed: u64,
    },
    /// This turn is the first that names no part, or a part of which no instruction is left.
    #[error("a turn names no instruction")]
    Turn(u32),
    /// No turn is wrong, and this part is the first of which instructions are left behind the last turn.
    #[error("turns of a part are missing")]
    Missing(u32),
    /// There was no memory.
    #[error("no memory")]
    NoMemory,
}

impl<T: Drop> From<AllocFailed<T>> for ManyFault {
    ghost use Rattle.std.specs.Prelude.{◌≡◌};
    ghost use Rattle.pim_share.specs.declared.fault.ManyFault.TheVariants as faults;

    ghost from_gives = { λ _ fault. fault ≡ faults.NoMemory };

    fn from(_error: AllocFailed<T>) -> ManyFault {
        ManyFault::NoMemory
    }
}

impl From<NoMemory> for ShareFault {
    ghost use Rattle.std.specs.Prelude.{◌≡◌};
    ghost use Rattle.pim_share.specs.declared.fault.ShareFault.TheVariants as faults;

    ghost from_gives = { λ _ fault. fault ≡ faults.NoMemory };

    fn from(_error: NoMemory) -> ShareFault {
        ShareFault::NoMemory
    }
}
