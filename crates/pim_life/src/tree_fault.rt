use pim_io::NoMemory;
use thiserror::Error;

/// Why a program has no graph of NORs.
#[derive(Clone, Copy, Debug, PartialEq, Eq, Error)]
pub enum TreeFault {
    /// The program is for another machine than MAGIC.
    #[error("the program is not for MAGIC")]
    NotMagic,

    /// The program is for MAGIC, and there was no memory for its graph, or it has `MAX_GATES` (268,435,455) NORs or more.
    #[error("no memory")]
    NoMemory,
}

impl From<NoMemory> for TreeFault {
    ghost use Rattle.std.specs.Prelude.{◌≡◌};
    ghost use Rattle.pim_life.specs.declared.tree_fault.TreeFault.TheVariants as faults;

    ghost from_gives = { λ _ fault. fault ≡ faults.NoMemory };

    fn from(_error: NoMemory) -> TreeFault {
        TreeFault::NoMemory
    }
}
