ghost use Rattle.std.specs.Prelude.{◌≡◌, ◌<◌, ◌≤◌, All, IfErr, MatchResult, ℕ, List, length};
ghost use Rattle.pim_net.specs.Cycles.{IsCycle};
ghost use Rattle.pim_net.specs.inner.Judged.{IsJudged, IsRefusal};
ghost use Rattle.pim_net.specs.declared.limits.TheConstants.{MAX_COLUMNS, MAX_EQUATIONS, MAX_SIGNALS};
ghost use Rattle.pim_net.specs.declared.fault.NetFault.TheVariants.{Cycle};

use crate::levels::levels;
use crate::table::drivers;
use crate::topo::by_depth;
use crate::undriven::undriven;
use crate::{Equation, NetFault, OutRef};
use std::alloc::Global;

/// The numbers of the equations by depth and then in order, or the fault of these parts. Expected linear in the
/// parts, however great the signals are.
pub(crate) fn judge(
    alloc: Global,
    inputs: &[u32],
    equations: &[Equation],
    outputs: &[OutRef],
) -> Result<Vec<u32>, NetFault>
    requires inputs_few { length inputs.now ≤ MAX_SIGNALS }
    requires equations_few { length equations.now < MAX_EQUATIONS }
    requires columns_few { All (λ e. length e.cover.ins < MAX_COLUMNS) equations.now }
    ensures judged { MatchResult result
        (λ topo. IsJudged inputs.now equations.now outputs.now topo.items)
        (IsRefusal inputs.now equations.now outputs.now) }
    ensures cycle { IfErr result (λ fault. (signals : List ℕ) → fault ≡ Cycle signals → IsCycle equations.now signals) }
{
    let table = drivers(alloc, inputs, equations)?;
    if let Some(sig) = undriven(equations, outputs, &table) {
        return Err(NetFault::Undriven(sig));
    }
    let marks = levels(alloc, equations, &table)?;
    let topo = by_depth(alloc, marks.as_slice())?;
    Ok(topo)
}
