ghost use Rattle.std.specs.Prelude.{◌≡◌, ◌<◌, ◌^◌, [], None, OnOk, IfOk, if◌then◌else◌, length, MatchResult};
ghost use Rattle.pim_net.specs.Drivers.{driven};
ghost use Rattle.pim_net.specs.Tables.{put, values};
ghost use Rattle.pim_net.specs.inner.Drivers.{is_nobody, driver};
ghost use Rattle.pim_net.specs.Faults.{first_repeat};
ghost use Rattle.pim_net.specs.inner.Judged.{IsTwice};

use crate::driver::Driver;
use crate::{Equation, NetFault, SignalTable};
use pim_io::NoMemory;
use std::alloc::Global;

/// What drives each signal, or the first driver whose signal an earlier one drives, as the fault `Twice`. Expected linear in
/// the drivers. Where the signals that are driven are the first ones, as in most files, all of them stand in the table's list.
pub(crate) fn drivers(
    alloc: Global,
    inputs: &[u32],
    equations: &[Equation],
) -> Result<SignalTable<Driver>, NetFault>
    requires inputs_few { length inputs.now < 2 ^ 32 }
    requires equations_few { length equations.now < 2 ^ 32 }
    ensures { MatchResult result
        (λ table. (first_repeat [] (driven inputs.now equations.now) ≡ None) × (values table ≡ driver inputs.now equations.now))
        (IsTwice (first_repeat [] (driven inputs.now equations.now))) }
{
    let mut table = SignalTable::new(alloc, inputs.len() + equations.len(), Driver::Nobody)?;
    'inputs: for (k, sig) in inputs.iter().enumerate() {
        let free = claim(&mut table, *sig, Driver::Input(k as u32))?;
        if !free {
            return Err(NetFault::Twice(*sig));
        }
    }
    'equations: for (k, equation) in equations.iter().enumerate() {
        let vacant = claim(&mut table, equation.sig, Driver::Cover(k as u32))?;
        if !vacant {
            return Err(NetFault::Twice(equation.sig));
        }
    }
    Ok(table)
}

/// Gives a signal its driver, and tells whether it had none.
fn claim(table: &mut SignalTable<Driver>, sig: u32, driver: Driver) -> Result<bool, NoMemory>
    ensures free { IfOk result (λ free. free ≡ is_nobody (values table.old sig)) }
    ensures after { IfOk result (λ free. values table.new ≡ (if free then put (values table.old) sig driver else values table.old)) }
{
    let free = matches!(table.at(sig), Driver::Nobody);
    if free {
        table.put(sig, driver)?;
    }
    Ok(free)
}
