use crate::Signals;
use pim_io::NoMemory;
use std::alloc::{AllocError, AllocFailed};
use std::slice;
use thiserror::Error;

/// Why a draft is no netlist: drivers are judged first, then what is read, then cycles.
#[derive(Debug, Drop, Error)]
pub enum NetFault {
    /// Two drivers of one signal: the signal of the first driver, inputs in order and then equations in order, whose signal
    /// an earlier one drives.
    #[error("a signal has two drivers")]
    Twice(u32),
    /// A signal that is read and that nothing drives: the first, by equations and their columns in order and then by outputs
    /// in order.
    #[error("a signal has no driver")]
    Undriven(u32),
    /// A cycle: one signal or more, of which the equation of each reads the next, and that of the last reads the first.
    #[error("signals form a cycle")]
    Cycle(Signals),
    /// An allocation was refused.
    #[error("no memory")]
    NoMemory,
}

impl NetFault {
    ghost use Rattle.std.specs.Prelude.{◌≡◌};
    ghost use Rattle.pim_net.specs.Faults.{signals_of};

    /// The signals that the fault names: those of a cycle in order, and else one or none.
    pub fn signals(&self) -> &[u32]
        ensures { result.now ≡ signals_of self.now }
    {
        match self {
            NetFault::Twice(sig) | NetFault::Undriven(sig) => slice::from_ref(sig),
            NetFault::Cycle(signals) => signals.list(),
            NetFault::NoMemory => &[],
        }
    }
}

impl From<NoMemory> for NetFault {
    ghost use Rattle.std.specs.Prelude.{◌≡◌};
    ghost use Rattle.pim_net.specs.declared.fault.NetFault.TheVariants as fault;

    ghost from_gives = { λ _ e. e ≡ fault.NoMemory };

    fn from(_error: NoMemory) -> NetFault {
        NetFault::NoMemory
    }
}

impl From<AllocError> for NetFault {
    ghost use Rattle.std.specs.Prelude.{◌≡◌};
    ghost use Rattle.pim_net.specs.declared.fault.NetFault.TheVariants as fault;

    ghost from_gives = { λ _ e. e ≡ fault.NoMemory };

    fn from(_error: AllocError) -> NetFault {
        NetFault::NoMemory
    }
}

impl<T: Drop> From<AllocFailed<T>> for NetFault {
    ghost use Rattle.std.specs.Prelude.{◌≡◌};
    ghost use Rattle.pim_net.specs.declared.fault.NetFault.TheVariants as fault;

    ghost from_gives = { λ _ e. e ≡ fault.NoMemory };

    fn from(_error: AllocFailed<T>) -> NetFault {
        NetFault::NoMemory
    }
}
