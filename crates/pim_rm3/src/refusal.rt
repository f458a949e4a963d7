use pim_io::NoMemory;
use thiserror::Error;

/// Why a graph was not scheduled.
#[derive(Clone, Copy, Debug, PartialEq, Eq, Error)]
pub enum Refusal {
    /// The budget is below the cells that the schedule takes. `needed` is how many are surely enough: never fewer than it takes, and
    /// sometimes more.
    #[error("too few cells")]
    TooFewCells { needed: u32 },
    /// Out of memory, at any point.
    #[error("out of memory")]
    NoMemory,
}

impl From<NoMemory> for Refusal {
    ghost use Rattle.std.specs.Prelude.{◌≡◌};
    ghost use Rattle.pim_rm3.specs.declared.refusal.Refusal.TheVariants as refusal;

    ghost from_gives = { λ _ e. e ≡ refusal.NoMemory };

    fn from(_error: NoMemory) -> Refusal {
        Refusal::NoMemory
    }
}

/// Why a majority graph was not scheduled.
#[derive(Clone, Copy, Debug, PartialEq, Eq, Error)]
pub enum SmartFault {
    /// The schedule takes `cells`, and the budget is below that.
    #[error("the schedule does not fit")]
    Unfit { cells: u32, budget: u32 },
    /// Out of memory, at any point.
    #[error("out of memory")]
    NoMemory,
}

impl From<NoMemory> for SmartFault {
    ghost use Rattle.std.specs.Prelude.{◌≡◌};
    ghost use Rattle.pim_rm3.specs.declared.refusal.SmartFault.TheVariants as faults;

    ghost from_gives = { λ _ fault. fault ≡ faults.NoMemory };

    fn from(_error: NoMemory) -> SmartFault {
        SmartFault::NoMemory
    }
}
