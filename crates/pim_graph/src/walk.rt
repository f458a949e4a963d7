ghost use Rattle.std.specs.Prelude.{◌≡◌, ◌<◌, ◌∷◌, ◌++◌, [], All, List, fold, length, map, reverse, slice_index, IfOk, OnOk};
ghost use Rattle.pim_graph.specs.Graphs.{kids_of};
ghost use Rattle.pim_graph.specs.Orders.{visited};
ghost use Rattle.pim_graph.specs.Usages.{falling};
ghost use Rattle.pim_graph.specs.declared.walk.Step.{Step};
ghost use Rattle.pim_graph.specs.declared.walk.Step.TheVariants as step;

use crate::Graph;
use crate::falling::put_falling;
use pim_io::NoMemory;
use std::alloc::Global;

/// What a visit has still to do.
#[derive(Clone, Copy)]
enum Step {
    /// To visit a gate.
    Visit(u32),
    /// To emit a gate, whose children have been visited.
    Emit(u32),
}

/// Puts visits of these gates on top, the first one topmost.
fn push_visits(stack: &mut Vec<Step>, gates: &[u32]) -> Result<(), NoMemory>
    ensures { OnOk result (stack.new.items ≡ stack.old.items ++ map step.Visit (reverse gates.now)) }
{
    for k in (0..gates.len()).rev() {
        stack.push(Step::Visit(gates[k]))?;
    }
    Ok(())
}

/// The gates that depth-first visits of these emit, one after another: each gate once, after its children, which are
/// visited by falling usage. Linear in the gates and what they read.
pub(crate) fn walk(
    alloc: Global,
    graph: &Graph,
    usage: &[u32],
    gates: &[u32],
) -> Result<Vec<u32>, NoMemory>
    requires usages { length usage.now ≡ length graph.now.kids }
    requires there { All (λ x. x < length graph.now.kids) gates.now }
    ensures { IfOk result (λ out. out.items
        ≡ fold (visited (λ x. falling (slice_index usage.now) (kids_of graph.now x))) [] gates.now) }
{
    let mut seen = vec![in alloc; false; graph.len() as usize]?;
    let mut out = Vec::new(alloc);
    let mut children = Vec::new(alloc);
    let mut stack = Vec::new(alloc);
    push_visits(&mut stack, gates)?;
    'steps: while let Some(step) = stack.pop() {
        let gate = match step {
            Step::Emit(gate) => {
                out.push(gate)?;
                seen[gate as usize] = true;
                continue;
            }
            Step::Visit(gate) => gate,
        };
        if seen[gate as usize] {
            continue;
        }
        stack.push(Step::Emit(gate))?;
        put_falling(&mut children, usage, graph.children(gate))?;
        push_visits(&mut stack, &children)?;
    }
    Ok(out)
}
