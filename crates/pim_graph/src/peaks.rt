ghost use Rattle.std.specs.Prelude.{◌≡◌, ◌+◌, ◌<◌, ◌≤◌, ◌^◌, ◌||◌, ℕ, List, true, All, count_by, drop, length, slice_set, take, if◌then◌else◌, IfOk, vec_len};
ghost use Rattle.pim_graph.specs.Graphs.{IsGraph, has};
ghost use Rattle.pim_graph.specs.Peaks.{IsPlaced, needed, peak};
ghost use Rattle.pim_graph.specs.Readers.{occurrences};
ghost use Rattle.pim_graph.specs.inner.Marks.{is_marked};

use crate::Graph;
use pim_io::NoMemory;
use std::alloc::Global;

/// Marks for the roots of a graph.
fn root_marks(alloc: Global, graph: &Graph) -> Result<Vec<bool>, NoMemory>
    ensures marked { IfOk result (λ marks. (x : ℕ) → x < length graph.now.kids → is_marked marks.items x ≡ has graph.now.roots x) }
    ensures len { IfOk result (λ marks. vec_len marks ≡ length graph.now.kids) }
    ensures sound { IsGraph graph.now }
{
    let mut marks = vec![in alloc; false; graph.len() as usize]?;
    for root in graph.roots() {
        marks[*root as usize] = true;
    }
    Ok(marks)
}

/// How many of these gates are marked.
fn count_marked(marks: &[bool], gates: &[u32]) -> u32
    requires there { All (λ x. x < length marks.now) gates.now }
    requires few { length gates.now < 2 ^ 28 }
    ensures { result ≡ count_by (is_marked marks.now) gates.now }
{
    let mut count = 0;
    for gate in gates {
        count += u32::from(marks[*gate as usize]);
    }
    count
}

/// Marks a gate, and tells how many marks that makes more: 1 or 0.
fn mark(marks: &mut Vec<bool>, gate: u32) -> u32
    requires { gate < vec_len marks.old }
    ensures marked { marks.new.items ≡ slice_set marks.old.items gate true }
    ensures more { result ≡ (if is_marked marks.old.items gate then 0 else 1) }
{
    if marks[gate as usize] {
        return 0;
    }
    marks[gate as usize] = true;
    1
}

/// Marks what a gate reads, and tells how many more gates of a list are marked then, if each of these stands in it once.
fn mark_reads(marks: &mut Vec<bool>, children: &[u32]) -> u32
    requires there { All (λ c. c < vec_len marks.old) children.now }
    requires few { length children.now ≤ 4 }
    ensures marked { (x : ℕ) → x < vec_len marks.old → is_marked marks.new.items x ≡ (is_marked marks.old.items x || has children.now x) }
    ensures len { vec_len marks.new ≡ vec_len marks.old }
    ensures more { (earlier : List ℕ) → All (λ c. occurrences earlier c ≡ 1) children.now
        → count_by (is_marked marks.new.items) earlier ≡ count_by (is_marked marks.old.items) earlier + result }
    ensures few { result ≤ 4 }
{
    let mut more = 0;
    for child in children {
        more += mark(marks, *child);
    }
    more
}

/// The greatest number of gates that an order holds at once: at each place the gate there, and each earlier one that is
/// a root or is read by the gate there or a later one. Linear in the gates, and in the order and what its gates read.
pub fn peak(alloc: Global, graph: &Graph, order: &[u32]) -> Result<u32, NoMemory>
    requires { IsPlaced graph.now order.now }
    ensures peak { IfOk result (λ most. most ≡ peak graph.now order.now) }
    ensures bounds { IfOk result (λ most. (p : ℕ) → p < length order.now →
        count_by (needed graph.now (drop p order.now)) (take p order.now) + 1 ≤ most) }
    ensures within { IfOk result (λ most. most ≤ length order.now) }
{
    let mut marks = root_marks(alloc, graph)?;
    let mut held = count_marked(&marks, order);
    let mut most = 0;
    for place in (0..order.len()).rev() {
        let gate = order[place];
        held -= u32::from(marks[gate as usize]);
        held += mark_reads(&mut marks, graph.children(gate));
        most = most.max(held + 1);
    }
    Ok(most)
}
