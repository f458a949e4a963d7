use pim_aig::FlatFault;
use pim_io::NoMemory;
use thiserror::Error;

/// Why a netlist was not compiled. `TooLarge` comes before `TooFewCells`, and `NoMemory` may come in place of each.
#[derive(Clone, Copy, Debug, PartialEq, Eq, Error)]
pub enum Refusal {
    /// No program that the level tries fits. The budget is below `needed` then, which is what `need` tells of the netlist; but a budget
    /// below that may be enough, except for MAGIC at level 0.
    #[error("too few cells")]
    TooFewCells { needed: u32 },
    /// The flat graph has more AND nodes than `pim_aig::MAX_ANDS`.
    #[error("too many nodes")]
    TooLarge,
    /// Out of memory, at any point.
    #[error("out of memory")]
    NoMemory,
}

impl From<NoMemory> for Refusal {
    ghost use Rattle.std.specs.Prelude.{◌≡◌};
    ghost use Rattle.pim_compile.specs.declared.refusal.Refusal.TheVariants as refusal;

    ghost from_gives = { λ _ e. e ≡ refusal.NoMemory };

    fn from(_error: NoMemory) -> Refusal {
        Refusal::NoMemory
    }
}

impl From<FlatFault> for Refusal {
    ghost use Rattle.std.specs.Prelude.{◌≡◌};
    ghost use Rattle.pim_compile.specs.inner.Candidates.{refusal_of};

    ghost from_gives = { λ fault e. e ≡ refusal_of fault };

    fn from(fault: FlatFault) -> Refusal {
        match fault {
            FlatFault::TooLarge => Refusal::TooLarge,
            FlatFault::NoMemory => Refusal::NoMemory,
        }
    }
}
