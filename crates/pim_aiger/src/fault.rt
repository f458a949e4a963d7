ghost use Rattle.std.specs.Prelude.{◌≡◌};
ghost use Rattle.pim_aiger.specs.declared.fault.AigerFault.TheVariants as faults;

use pim_io::NoMemory;
use pim_net::{Kind, Names, NetFault};
use std::alloc::{AllocError, AllocFailed};
use thiserror::Error;

/// Why bytes are no AIGER netlist: the first part in the file that breaks a rule. Places count bytes from 0; a line or a
/// code is told by the place of its first byte.
#[derive(Debug, Drop, Error)]
pub enum AigerFault {
    /// The tag is missing, the header is not five numbers, or the greatest variable is below the inputs and gates together (in
    /// the binary form: not equal to them).
    #[error("the header is wrong")]
    Header,
    /// The header tells latches, which a combinational netlist has not. It is judged before the greatest variable.
    #[error("there are latches")]
    Latches,
    /// The line at this place has not as many numbers as it is to have, or something else.
    #[error("a line has other numbers")]
    Number(u32),
    /// The line at this place has a literal that may not stand there: one past the greatest variable, or a complemented or
    /// constant one where an input or a gate is told.
    #[error("a literal is out of place")]
    Literal(u32),
    /// The bytes end, at this place, inside a line or a code that is to be there.
    #[error("the bytes end too early")]
    Truncated(u32),
    /// The code at this place is too long, or its difference leads to no smaller literal.
    #[error("a code leads to no literal")]
    Delta(u32),
    /// The line at this place is no symbol, or the symbol of an input or an output that the header doesn't tell.
    #[error("a symbol is wrong")]
    Symbol(u32),
    /// The netlist is not well-formed; the labels of the signals that the fault names, of which variable 7 is called `v7`.
    #[error("the netlist is not well-formed")]
    Net(NetFault, Names),
    /// The header tells more signals or outputs than their limits, or a symbol has a name of more than `MAX_NAME` bytes.
    #[error("a count passes its limit")]
    TooLarge(Kind),
    /// An allocation was refused.
    #[error("no memory")]
    NoMemory,
}

impl From<NoMemory> for AigerFault {
    ghost from_gives = { λ _ fault. fault ≡ faults.NoMemory };

    fn from(_error: NoMemory) -> AigerFault {
        AigerFault::NoMemory
    }
}

impl From<AllocError> for AigerFault {
    ghost from_gives = { λ _ fault. fault ≡ faults.NoMemory };

    fn from(_error: AllocError) -> AigerFault {
        AigerFault::NoMemory
    }
}

impl<T: Drop> From<AllocFailed<T>> for AigerFault {
    ghost from_gives = { λ _ fault. fault ≡ faults.NoMemory };

    fn from(_error: AllocFailed<T>) -> AigerFault {
        AigerFault::NoMemory
    }
}
