ghost use Rattle.std.specs.Prelude.{◌≡◌, ◌+◌, ◌*◌, ◌<◌, ◌≤◌, ◌^◌, All, length, map, slice_index, IfOk, vec_len};
ghost use Rattle.pim_graph.specs.Graphs.{IsGraph};
ghost use Rattle.pim_graph.specs.Usages.{most_raised, usage_of, usages};

use crate::Graph;
use crate::falling::put_falling;
use pim_io::NoMemory;
use std::alloc::Global;

/// The usage of a gate whose children are these, by falling usage: at least 1, one more than the children, and for each
/// child its usage raised by how many stand before it.
fn usage_of(usages: &[u32], children: &[u32]) -> u32
    requires there { All (λ c. c < length usages.now) children.now }
    requires few { length children.now ≤ 4 }
    requires fit { All (λ u. u ≤ length usages.now * 4 + 1) usages.now }
    requires room { length usages.now < 2 ^ 28 }
    ensures usage { result ≡ usage_of (map (slice_index usages.now) children.now) }
    ensures fits { result ≤ (length usages.now + 1) * 4 + 1 }
{
    let mut most = 1.max(children.len() as u32 + 1);
    for (k, child) in children.iter().enumerate() {
        most = most.max(usages[*child as usize] + k as u32);
    }
    most
}

/// The usage of each gate: how many cells its value takes to compute where the children with greater usages come first.
/// Linear in the gates.
pub fn usage(alloc: Global, graph: &Graph) -> Result<Vec<u32>, NoMemory>
    ensures values { IfOk result (λ us. us.items ≡ usages graph.now) }
    ensures len { IfOk result (λ us. vec_len us ≡ length graph.now.kids) }
{
    let mut usages = Vec::new(alloc);
    let mut children = Vec::new(alloc);
    for gate in 0..graph.len() {
        put_falling(&mut children, &usages, graph.children(gate))?;
        usages.push(usage_of(&usages, &children))?;
    }
    Ok(usages)
}
