ghost use Rattle.std.specs.Prelude.{◌≡◌, ◌+◌, ◌<◌, ℕ, true, All, drop, slice_index, IfOk, vec_len};
ghost use Rattle.pim_graph.specs.Graphs.{IsGraph, has};
ghost use Rattle.pim_graph.specs.Orders.{IsReached, order};
ghost use Rattle.pim_graph.specs.Peaks.{IsPlaced, needed};

use crate::Graph;
use crate::falling::sort_falling;
use crate::usages::usage;
use crate::walk::walk;
use pim_io::NoMemory;
use std::alloc::Global;

/// The gates that the roots reach, each once and after its children, in the order of a depth-first visit: the roots, and
/// at each gate its children, by falling usage, those of one usage in their order. Linear in the gates, but for
/// sorting n roots, which takes n log n.
pub fn order(alloc: Global, graph: &Graph) -> Result<Vec<u32>, NoMemory>
    ensures order { IfOk result (λ gates. gates.items ≡ order graph.now) }
    ensures placed { IfOk result (λ gates. IsPlaced graph.now gates.items) }
    ensures reached { IfOk result (λ gates. All (IsReached graph.now) gates.items) }
    ensures complete { IfOk result (λ gates. (gate : ℕ) → IsReached graph.now gate → has gates.items gate ≡ true) }
    ensures needed { IfOk result (λ gates. (p : ℕ) → p < vec_len gates →
        needed graph.now (drop (p + 1) gates.items) (slice_index gates.items p) ≡ true) }
{
    let usage = usage(alloc, graph)?;
    let mut roots = Vec::from_slice(alloc, graph.roots())?;
    sort_falling(&mut roots, &usage)?;
    walk(alloc, graph, &usage, &roots)
}
