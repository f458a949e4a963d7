ghost use Rattle.std.specs.Prelude.{◌≡◌, MatchResult};
ghost use Rattle.pim_net.specs.Tables.{values};
ghost use Rattle.pim_net.specs.inner.DepthFirst.{IsWired, IsLevelled, IsCycleFault, is_new};

use crate::driver::Driver;
use crate::search::Mark;
use crate::visit::visit;
use crate::{Equation, NetFault, SignalTable};
use std::alloc::Global;

/// The depths of all equations, in order, or the cycle that a walk from the first equation without a depth comes to.
/// Linear in the equations and their columns.
pub(crate) fn levels(
    alloc: Global,
    equations: &[Equation],
    table: &SignalTable<Driver>,
) -> Result<Vec<Mark>, NetFault>
    requires { IsWired equations.now (values table.now) }
    ensures { MatchResult result
        (λ marks. IsLevelled equations.now (values table.now) marks.items)
        (IsCycleFault equations.now (values table.now)) }
{
    let mut marks = vec![in alloc; Mark::New; equations.len()]?;
    let mut path = Vec::new(alloc);
    'roots: for root in 0..equations.len() {
        if is_new(marks[root]) {
            visit(alloc, equations, table, &mut marks, &mut path, root as u32)?;
        }
    }
    Ok(marks)
}

/// Whether an equation was not come to.
fn is_new(mark: Mark) -> bool
    ensures { result ≡ is_new mark }
{
    matches!(mark, Mark::New)
}
