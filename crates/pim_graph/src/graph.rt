ghost use Rattle.std.specs.Prelude.{◌≡◌, ◌==◌, ◌+◌, ◌<◌, ◌≤◌, ◌^◌, ◌∷◌, ◌++◌, [], ℕ, All, length, slice_index_or, if◌then◌else◌, IfOk, OnErr, OnOk};
ghost use Rattle.pim_graph.specs.Graphs.{IsGraph, has};
ghost use Rattle.pim_graph.specs.Orders.{IsReached, order};
ghost use Rattle.pim_graph.specs.Peaks.{IsPlaced};
ghost use Rattle.pim_graph.specs.inner.Nodes.{IsNodeOf};

use pim_io::NoMemory;
use std::alloc::Global;
use std::marker::Model;

/// What a gate reads, and whether it is a root.
#[derive(Clone, Copy, Debug)]
struct Node {
    list: [u32; 4],
    count: u8,
    is_root: bool,
}

/// A graph of gates, each of which reads at most four gates before it, with some of them as its roots.
#[derive(Debug, Drop)]
pub struct Graph {
    nodes: Vec<Node>,
    roots: Vec<u32>,
}

impl Model for Graph {
    ghost use Rattle.pim_graph.specs.Graphs.{GraphView};
    ghost use Rattle.pim_graph.specs.inner.Nodes.{view_of, IsWhole};

    ghost Value = { GraphView };

    ghost view = { λ g. view_of g.nodes.items g.roots.items };

    ghost invariant = { λ g. IsWhole g.nodes.items g.roots.items };
}

impl Graph {
    /// A graph without gates.
    pub fn new(alloc: Global) -> Graph
        ensures { result ≡ record { kids = []; roots = [] } }
    {
        Graph {
            nodes: Vec::new(alloc),
            roots: Vec::new(alloc),
        }
    }

    /// Appends a gate that reads these, and gives its number. Constant time.
    pub fn add(&mut self, children: &[u32]) -> Result<u32, NoMemory>
        requires few { length children.now ≤ 4 }
        requires there { All (λ c. c < length self.old.kids) children.now }
        requires room { length self.old.kids + 1 < 2 ^ 28 }
        ensures number { IfOk result (λ gate. gate ≡ length self.old.kids) }
        ensures grown { OnOk result (self.new ≡ record self.old { kids = self.old.kids ++ children.now ∷ [] }) }
        ensures kept { OnErr result (self.new ≡ self.old) }
    {
        let gate = self.nodes.len() as u32;
        self.nodes.push(node_of(children))?;
        Ok(gate)
    }

    /// Makes a gate a root, unless it is one already. Constant time.
    pub fn add_root(&mut self, gate: u32) -> Result<(), NoMemory>
        requires there { gate < length self.old.kids }
        ensures grown { OnOk result (self.new ≡ record self.old {
          roots = if has self.old.roots gate then self.old.roots else self.old.roots ++ gate ∷ [];
        }) }
        ensures kept { OnErr result (self.new ≡ self.old) }
    {
        if self.nodes[gate as usize].is_root {
            return Ok(());
        }
        self.roots.push(gate)?;
        self.nodes[gate as usize].is_root = true;
        Ok(())
    }

    /// How many gates there are.
    pub fn len(&self) -> u32
        ensures count { result ≡ length self.now.kids }
        ensures sound { IsGraph self.now }
    {
        self.nodes.len() as u32
    }

    /// Whether there is no gate.
    pub fn is_empty(&self) -> bool
        ensures { result ≡ (length self.now.kids == 0) }
    {
        self.nodes.is_empty()
    }

    /// What a gate reads, in order.
    pub fn children(&self, gate: u32) -> &[u32]
        requires { gate < length self.now.kids }
        ensures list { result.now ≡ slice_index_or self.now.kids gate [] }
        ensures below { All (λ c. c < gate) result.now }
        ensures few { length result.now ≤ 4 }
    {
        let node = &self.nodes[gate as usize];
        &node.list[..node.count as usize]
    }

    /// Whether a gate is a root. Constant time.
    pub fn is_root(&self, gate: u32) -> bool
        requires { gate < length self.now.kids }
        ensures { result ≡ has self.now.roots gate }
    {
        self.nodes[gate as usize].is_root
    }

    /// The roots, in the order in which they were named.
    pub fn roots(&self) -> &[u32]
        ensures list { result.now ≡ self.now.roots }
        ensures sound { IsGraph self.now }
    {
        self.roots.as_slice()
    }

    /// The law of orders, for those who read a graph: it computes nothing. The order of the graph holds gates of it, each
    /// once and after its children, and it holds all of them where the roots reach all.
    pub fn has_order(&self)
        ensures placed { IsPlaced self.now (order self.now) }
        ensures full { ((gate : ℕ) → gate < length self.now.kids → IsReached self.now gate)
            → length (order self.now) ≡ length self.now.kids }
        ensures few { length (order self.now) ≤ length self.now.kids }
    {
        let _ = &self.roots;
    }
}

/// A gate that reads these, and is no root.
fn node_of(children: &[u32]) -> Node
    requires { length children.now ≤ 4 }
    ensures { IsNodeOf children.now result }
{
    let list = match children {
        [a] => [*a, 0, 0, 0],
        [a, b] => [*a, *b, 0, 0],
        [a, b, c] => [*a, *b, *c, 0],
        [a, b, c, d] => [*a, *b, *c, *d],
        _ => [0; 4],
    };
    Node {
        list,
        count: children.len() as u8,
        is_root: false,
    }
}
