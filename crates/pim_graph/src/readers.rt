ghost use Rattle.std.specs.Prelude.{◌≡◌, ◌==◌, ◌+◌, ◌-◌, ◌<◌, ◌≤◌, ◌^◌, ℕ, nat_lt, All, List, length, slice_index, slice_set, IfOk, vec_len};
ghost use Rattle.pim_graph.specs.Graphs.{GraphView, IsGraph};
ghost use Rattle.pim_graph.specs.Peaks.{IsPlaced, needed, read_by};
ghost use Rattle.pim_graph.specs.Readers.{CountsReads, occurrences, reads, still_needed};

use crate::Graph;
use pim_io::NoMemory;
use std::alloc::Global;
use std::marker::Model;

/// How many reads of each gate are still to come, as the gates of an order are computed one after another. Contracts see
/// it as the list of these numbers.
#[derive(Debug, Drop)]
pub struct Readers {
    left: Vec<u32>,
}

impl Model for Readers {
    ghost use Rattle.std.specs.Prelude.{ℕ, List};

    ghost Value = { List ℕ };

    ghost view = { λ r. r.left.items };
}

impl Readers {
    /// The reads of all gates of an order. Linear in the gates, and in the order and what its gates read.
    pub fn new(alloc: Global, graph: &Graph, order: &[u32]) -> Result<Readers, NoMemory>
        requires { IsPlaced graph.now order.now }
        ensures counts { IfOk result (λ left. CountsReads graph.now order.now left) }
        ensures sound { IsGraph graph.now }
    {
        let mut left = vec![in alloc; 0u32; graph.len() as usize]?;
        for gate in order {
            count_reads(&mut left, graph.children(*gate));
        }
        Ok(Readers { left })
    }

    /// Takes back one read of a gate. Constant time.
    pub fn take_back(&mut self, gate: u32)
        requires there { gate < length self.old }
        requires read { 0 < slice_index self.old gate }
        ensures { self.new ≡ slice_set self.old gate (slice_index self.old gate - 1) }
    {
        self.left[gate as usize] -= 1;
    }

    /// Whether no read of a gate is still to come. Constant time.
    pub fn is_spent(&self, gate: u32) -> bool
        requires { gate < length self.now }
        ensures { result ≡ (slice_index self.now gate == 0) }
    {
        self.left[gate as usize] == 0
    }

    /// Whether exactly one read of a gate is still to come. Constant time.
    pub fn is_last(&self, gate: u32) -> bool
        requires { gate < length self.now }
        ensures { result ≡ (slice_index self.now gate == 1) }
    {
        self.left[gate as usize] == 1
    }

    /// A gate is still needed by the numbers exactly where it is a root or one of the gates whose reads they count reads
    /// it. It computes nothing.
    pub fn tell_needed(&self)
        ensures read { (g : GraphView) (readers : List ℕ) (x : ℕ) → read_by g readers x ≡ nat_lt 0 (reads g readers x) }
        ensures needed { (g : GraphView) (readers : List ℕ) → CountsReads g readers self.now → (x : ℕ) → x < length g.kids
            → still_needed g self.now x ≡ needed g readers x }
    {}
}

/// Counts the reads of one more gate.
pub(crate) fn count_reads(counts: &mut Vec<u32>, children: &[u32])
    requires there { All (λ c. c < vec_len counts.old) children.now }
    requires few { length children.now ≤ 4 }
    requires room { All (λ n. n + 4 < 2 ^ 32) counts.old.items }
    ensures counts { (x : ℕ) → x < vec_len counts.old →
        slice_index counts.new.items x ≡ slice_index counts.old.items x + occurrences children.now x }
    ensures len { vec_len counts.new ≡ vec_len counts.old }
{
    for child in children {
        counts[*child as usize] += 1;
    }
}
