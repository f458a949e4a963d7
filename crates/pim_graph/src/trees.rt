ghost use Rattle.std.specs.Prelude.{◌≡◌, ◌↔◌, ◌<◌, ◌≤◌, ℕ, List, length, slice_index, IfOk, IfSome, IsTrue};
ghost use Rattle.pim_graph.specs.Graphs.{IsGraph};
ghost use Rattle.pim_graph.specs.Orders.{order};
ghost use Rattle.pim_graph.specs.Peaks.{peak};
ghost use Rattle.pim_graph.specs.Trees.{all_reads, tree_of, IsOrdering};

use crate::readers::count_reads;
use crate::{Graph, usage};
use pim_io::NoMemory;
use std::alloc::Global;

/// The usage of the root, exactly where the graph is a tree: it has one root, which reaches every gate, and every other gate is read
/// once. That many cells the tool's order takes, and no order takes fewer. Linear in the gates.
pub fn tree(alloc: Global, graph: &Graph) -> Result<Option<u32>, NoMemory>
    ensures tree { IfOk result (λ answer. answer ≡ tree_of graph.now) }

    // For a tree it is the peak of the order, and no list that has each gate once and children before their gates has a
    // smaller peak.
    ensures best { IfOk result (λ answer. IfSome answer (λ cells. cells ≡ peak graph.now (order graph.now))) }
    ensures least { IfOk result (λ answer. IfSome answer (λ cells.
        (gates : List ℕ) → IsOrdering graph.now gates → cells ≤ peak graph.now gates)) }
{
    let answer = root_usage(alloc, graph)?;
    Ok(answer)
}

/// The usage of the root, where the root is the last gate and each gate before it is read once.
fn root_usage(alloc: Global, graph: &Graph) -> Result<Option<u32>, NoMemory>
    ensures { IfOk result (λ answer. (answer ≡ tree_of graph.now) × IsGraph graph.now) }
{
    let roots = graph.roots();
    if !is_one(roots) {
        return Ok(None);
    }
    let root = roots[0];
    if root + 1 != graph.len() {
        return Ok(None);
    }
    let counts = read_counts(alloc, graph)?;
    if !are_read_once(&counts, root) {
        return Ok(None);
    }
    let usages = usage(alloc, graph)?;
    Ok(Some(usages[root as usize]))
}

/// Whether there is one root.
fn is_one(roots: &[u32]) -> bool
    ensures { IsTrue result ↔ length roots.now ≡ 1 }
{
    roots.len() == 1
}

/// How often each gate is read by all gates. Linear in the gates.
fn read_counts(alloc: Global, graph: &Graph) -> Result<Vec<u32>, NoMemory>
    ensures counts { IfOk result (λ counts. (x : ℕ) → x < length graph.now.kids → slice_index counts.items x ≡ all_reads graph.now x) }
    ensures len { IfOk result (λ counts. length counts.items ≡ length graph.now.kids) }
{
    let mut counts = vec![in alloc; 0u32; graph.len() as usize]?;
    for gate in 0..graph.len() {
        count_reads(&mut counts, graph.children(gate));
    }
    Ok(counts)
}

/// Whether each gate before this one is read once.
fn are_read_once(counts: &[u32], end: u32) -> bool
    requires { end ≤ length counts.now }
    ensures { IsTrue result ↔ ((x : ℕ) → x < end → slice_index counts.now x ≡ 1) }
{
    counts[..end as usize].iter().all(|count| *count == 1)
}
