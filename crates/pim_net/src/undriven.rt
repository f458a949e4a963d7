ghost use Rattle.std.specs.Prelude.{◌≡◌, find};
ghost use Rattle.pim_net.specs.Drivers.{read};
ghost use Rattle.pim_net.specs.inner.Drivers.{is_nobody};
ghost use Rattle.pim_net.specs.Tables.{values};

use crate::driver::Driver;
use crate::{Equation, OutRef, SignalTable};

/// The first signal that is read and that the table gives nobody: by equations and their columns in order, and then by
/// outputs in order. Linear in the columns and the outputs.
pub(crate) fn undriven(
    equations: &[Equation],
    outputs: &[OutRef],
    table: &SignalTable<Driver>,
) -> Option<u32>
    ensures { result ≡ find (λ s. is_nobody (values table.now s)) (read equations.now outputs.now) }
{
    'equations: for equation in equations {
        if let Some(sig) = undriven_column(equation.cover.ins(), table) {
            return Some(sig);
        }
    }
    'outputs: for out in outputs {
        if is_undriven(out.sig, table) {
            return Some(out.sig);
        }
    }
    None
}

/// The first of these columns that the table gives nobody.
fn undriven_column(columns: &[u32], table: &SignalTable<Driver>) -> Option<u32>
    ensures { result ≡ find (λ s. is_nobody (values table.now s)) columns.now }
{
    'columns: for sig in columns {
        if is_undriven(*sig, table) {
            return Some(*sig);
        }
    }
    None
}

/// Whether the table gives a signal nobody.
fn is_undriven(sig: u32, table: &SignalTable<Driver>) -> bool
    ensures { result ≡ is_nobody (values table.now sig) }
{
    matches!(table.at(sig), Driver::Nobody)
}
