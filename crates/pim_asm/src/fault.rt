ghost use Rattle.std.specs.Prelude.{◌≡◌};
ghost use Rattle.pim_asm.specs.declared.fault.AsmFault.TheVariants as faults;

use pim_io::NoMemory;
use pim_isa::Invalid;
use thiserror::Error;

/// Why a text of assembly is no program: the first line at fault, else the first fault of the program. Lines are counted
/// from 1.
#[derive(Clone, Copy, Debug, PartialEq, Eq, Error)]
pub enum AsmFault {
    /// This line is the first at fault: it has another shape, may not stand there, or says more than `MAX_CELLS` cells. Where the
    /// target or the number of cells is missing, it is one more than the lines.
    #[error("a line is wrong")]
    Line(u32),
    /// This line is the first at fault, and has the shape of a statement: it uses a name that is not defined before it, or defines
    /// one again.
    #[error("a name is not defined, or is defined twice")]
    Name(u32),
    /// No line is at fault, and the program has this first fault.
    #[error("the program is not valid")]
    Invalid(Invalid),
    /// There was no memory.
    #[error("no memory")]
    NoMemory,
}

impl From<NoMemory> for AsmFault {
    ghost from_gives = { λ _ fault. fault ≡ faults.NoMemory };

    fn from(_error: NoMemory) -> AsmFault {
        AsmFault::NoMemory
    }
}

impl From<Invalid> for AsmFault {
    ghost from_gives = { λ invalid fault. fault ≡ faults.Invalid invalid };

    fn from(invalid: Invalid) -> AsmFault {
        AsmFault::Invalid(invalid)
    }
}
