ghost use Rattle.std.specs.Prelude.{◌≡◌};
ghost use Rattle.pim_debug.specs.declared.fault.DebugFault.TheVariants as faults;

use pim_io::NoMemory;
use thiserror::Error;

/// Why a command is refused. Each command has one cause besides memory.
#[derive(Clone, Copy, Debug, PartialEq, Eq, Error)]
pub enum DebugFault {
    /// The line has words, and is no command: another name, another number of words, or no number of at most ten digits below
    /// 2^32 where one is to stand.
    #[error("bad command")]
    BadCommand,
    /// `delete` names this number, under which no breakpoint is set.
    #[error("no such break")]
    NoSuchBreak(u32),
    /// `step`, `goto` or `break` means this position, and the program has fewer instructions.
    #[error("out of program")]
    OutOfProgram(u64),
    /// `cell` names this cell, which the program does not have.
    #[error("no such cell")]
    NoSuchCell(u32),
    /// There was no memory to go forward, to set a breakpoint or for the bits of `show`, or too many breakpoints stand at one
    /// position to be counted.
    #[error("no memory")]
    NoMemory,
}

impl From<NoMemory> for DebugFault {
    ghost from_gives = { λ _ fault. fault ≡ faults.NoMemory };

    fn from(_error: NoMemory) -> DebugFault {
        DebugFault::NoMemory
    }
}
