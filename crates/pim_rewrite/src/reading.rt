ghost use Rattle.std.specs.Prelude.{◌≡◌, ◌+◌, ◌^◌, ◌<◌, ◌∷◌, [], if◌then◌else◌, ℕ, length, nat_lt, slice_index_or, IfOk};
ghost use Rattle.pim_aig.specs.Graph.{IsOfFirst};
ghost use Rattle.pim_aig.specs.Literals.{node};
ghost use Rattle.pim_mig.specs.Graph.{IsMig, size};
ghost use Rattle.pim_mig.specs.Laws.{MajorityLaws};
ghost use Rattle.pim_mig.specs.Needs.{is_needed, is_single, named, reads, times};
ghost use Rattle.pim_rewrite.specs.Cases.{node_at};
ghost use Rattle.pim_rewrite.specs.inner.Tables.{IsBefore, operand_nodes};

use pim_aig::Lit;
use pim_io::NoMemory;
use pim_mig::{Maj, Mig};
use std::alloc::Global;
use std::marker::Model;

/// A majority graph, and of each of its nodes how often needed nodes read it and how many outputs are of it.
#[derive(Drop)]
pub(crate) struct Reading<'a> {
    mig: &'a Mig,
    reads: Vec<u32>,
    outs: Vec<u32>,
}

impl<'a> Model for Reading<'a> {
    ghost use Rattle.pim_mig.specs.Graph.{MigView};
    ghost use Rattle.pim_rewrite.specs.inner.Tables.{Counts};

    ghost Value = { MigView };

    ghost view = { λ r. r.mig.now };

    ghost invariant = { λ r. Counts r.mig.now r.reads.items r.outs.items };
}

impl<'a> Reading<'a> {
    /// Counts the reads of a graph. Linear time.
    pub(crate) fn of(alloc: Global, mig: &'a Mig) -> Result<Reading<'a>, NoMemory>
        ensures { IfOk result (λ reading. reading ≡ mig.now) }
    {
        let outs = count_outputs(alloc, mig)?;
        let reads = count_reads(alloc, mig, &outs)?;
        Ok(Reading { mig, reads, outs })
    }

    /// How many inputs the graph has.
    pub(crate) fn inputs(&self) -> u32
        ensures count { result ≡ self.now.inputs }
        ensures sound { IsMig self.now }
    {
        self.mig.inputs()
    }

    /// The nodes of the graph.
    pub(crate) fn nodes(&self) -> &[Maj]
        ensures nodes { result.now ≡ self.now.nodes }
        ensures sound { IsMig self.now }
    {
        self.mig.nodes()
    }

    /// The outputs of the graph.
    pub(crate) fn outputs(&self) -> &[Lit]
        ensures literals { result.now ≡ self.now.outputs }
        ensures sound { IsMig self.now }
    {
        self.mig.outputs()
    }

    /// The law of the graph's values, for those who read it: it computes nothing.
    pub(crate) fn has_values(&self)
        ensures { MajorityLaws self.now }
    {
        self.mig.has_values();
    }

    /// Whether an output reaches a node.
    pub(crate) fn is_needed(&self, node: u32) -> bool
        requires { node < size self.now }
        ensures { result ≡ is_needed self.now node }
    {
        self.outs[node as usize] > 0 || self.reads[node as usize] > 0
    }

    /// Whether a node is a majority that is read once in all.
    pub(crate) fn is_single(&self, node: u32) -> bool
        requires { node < size self.now }
        ensures { result ≡ is_single self.now node }
    {
        node > self.mig.inputs() && self.reads[node as usize] == 1 && self.outs[node as usize] == 0
    }

    /// The majority node that a literal is of.
    pub(crate) fn node_at(&self, literal: Lit) -> Maj
        requires there { IsOfFirst (size self.now) literal }
        requires majority { self.now.inputs < node literal }
        ensures { result ≡ node_at self.now literal }
    {
        let nodes = self.mig.nodes();
        nodes[(literal.node() - (1 + self.mig.inputs())) as usize]
    }
}

/// How many outputs are of each node.
fn count_outputs(alloc: Global, mig: &Mig) -> Result<Vec<u32>, NoMemory>
    ensures count { IfOk result (λ outs. length outs.items ≡ size mig.now) }
    ensures counts { IfOk result (λ outs. (n : ℕ) → n < size mig.now → slice_index_or outs.items n 0 ≡ named mig.now n) }
{
    let mut outs = vec![in alloc; 0; 1 + mig.inputs() as usize + mig.nodes().len()]?;
    let outputs = mig.outputs();
    for output in outputs {
        count(&mut outs, output.node());
    }
    Ok(outs)
}

/// Counts one more of a node.
fn count(table: &mut Vec<u32>, node: u32)
    requires there { node < length table.old.items }
    requires room { (n : ℕ) → n < length table.old.items → slice_index_or table.old.items n 0 < 2 ^ 30 }
    ensures count { length table.new.items ≡ length table.old.items }
    ensures counts { (n : ℕ) → n < length table.old.items
        → slice_index_or table.new.items n 0 ≡ times n (node ∷ []) + slice_index_or table.old.items n 0 }
{
    table[node as usize] += 1;
}

/// How often needed nodes read each node, where so many outputs are of it: from the last node down, since only later ones read it.
fn count_reads(alloc: Global, mig: &Mig, outs: &[u32]) -> Result<Vec<u32>, NoMemory>
    requires count { length outs.now ≡ size mig.now }
    requires counts { (n : ℕ) → n < size mig.now → slice_index_or outs.now n 0 ≡ named mig.now n }
    ensures count { IfOk result (λ table. length table.items ≡ size mig.now) }
    ensures counts { IfOk result (λ table. (n : ℕ) → n < size mig.now → slice_index_or table.items n 0 ≡ reads mig.now n) }
{
    let first = 1 + mig.inputs() as usize;
    let nodes = mig.nodes();
    let mut reads = vec![in alloc; 0; first + nodes.len()]?;
    for done in 0..nodes.len() {
        let k = nodes.len() - 1 - done;
        let needed = is_read(outs, &reads, first + k);
        read_operands(&mut reads, nodes[k], needed);
    }
    Ok(reads)
}

/// Whether a node is an output's or read.
fn is_read(outs: &[u32], reads: &[u32], node: usize) -> bool
    requires in_outs { node < length outs.now }
    requires in_reads { node < length reads.now }
    ensures { result ≡ nat_lt 0 (slice_index_or outs.now node 0 + slice_index_or reads.now node 0) }
{
    outs[node] > 0 || reads[node] > 0
}

/// Counts the operands of a node, if it is needed.
fn read_operands(reads: &mut Vec<u32>, node: Maj, needed: bool)
    requires there { IsBefore (length reads.old.items) node }
    requires room { (n : ℕ) → n < length reads.old.items → slice_index_or reads.old.items n 0 < 2 ^ 30 }
    ensures count { length reads.new.items ≡ length reads.old.items }
    ensures counts { (n : ℕ) → n < length reads.old.items
        → slice_index_or reads.new.items n 0 ≡ times n (if needed then operand_nodes node else []) + slice_index_or reads.old.items n 0 }
{
    if needed {
        reads[node.x.node() as usize] += 1;
        reads[node.y.node() as usize] += 1;
        reads[node.z.node() as usize] += 1;
    }
}
