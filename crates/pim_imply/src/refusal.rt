ghost use Rattle.std.specs.Prelude.{◌≡◌};
ghost use Rattle.pim_imply.specs.declared.refusal.ImplyRefusal.TheVariants as unfit;

use pim_aig::FlatFault;
use pim_io::NoMemory;
use thiserror::Error;

/// Why a netlist is not compiled. Too many nodes come before too few cells.
#[derive(Clone, Copy, Debug, PartialEq, Eq, Error)]
pub enum ImplyRefusal {
    /// The budget is below the number of cells that are needed.
    #[error("there are too few cells")]
    TooFewCells {
        /// How many cells are needed: those of the inputs, and as many as the order of the gates holds values at once.
        needed: u32,
    },
    /// The flat graph has more AND nodes than `pim_aig::MAX_ANDS`.
    #[error("there are too many nodes")]
    TooLarge,
    /// There was no memory.
    #[error("no memory")]
    NoMemory,
}

impl From<NoMemory> for ImplyRefusal {
    ghost from_gives = { λ _ fault. fault ≡ unfit.NoMemory };

    fn from(_error: NoMemory) -> ImplyRefusal {
        ImplyRefusal::NoMemory
    }
}

impl From<FlatFault> for ImplyRefusal {
    ghost use Rattle.pim_imply.specs.Compiled.{refusal_of};

    ghost from_gives = { λ fault refusal. refusal ≡ refusal_of fault };

    fn from(fault: FlatFault) -> ImplyRefusal {
        match fault {
            FlatFault::TooLarge => ImplyRefusal::TooLarge,
            FlatFault::NoMemory => ImplyRefusal::NoMemory,
        }
    }
}
