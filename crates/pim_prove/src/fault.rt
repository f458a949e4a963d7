use crate::unset::Unset;
use pim_io::NoMemory;
use thiserror::Error;

/// Why a program is not compared with a netlist: the first of these that applies, as `refusal_of` says, or the last one, which may
/// come in place of any.
#[derive(Clone, Copy, Debug, PartialEq, Eq, Error)]
pub enum ProveFault {
    /// The program has not as many inputs as the netlist, or not as many outputs.
    #[error("the program has other ports than the netlist")]
    Ports,

    /// The netlist has more inputs than `MAX_PROVE_INPUTS`.
    #[error("the netlist has too many inputs")]
    Inputs,

    /// The flat graph has more AND nodes than `pim_aig::MAX_ANDS`.
    #[error("the netlist has too many nodes")]
    Nodes,

    /// The program uses a cell that is no input before it is written, or an output lies in such a cell at the end: the first such use,
    /// as `unset_of` tells it.
    #[error("the program uses a cell before it is set")]
    NotClean(Unset),

    /// There was no memory.
    #[error("no memory")]
    NoMemory,
}

impl From<NoMemory> for ProveFault {
    ghost use Rattle.std.specs.Prelude.{◌≡◌};
    ghost use Rattle.pim_prove.specs.declared.fault.ProveFault.TheVariants as faults;

    ghost from_gives = { λ _ fault. fault ≡ faults.NoMemory };

    fn from(_error: NoMemory) -> ProveFault {
        ProveFault::NoMemory
    }
}
