ghost use Rattle.std.specs.Prelude.{◌≡◌, ◌+◌, ◌<◌, ◌≤◌, ◌∷◌, ◌++◌, [], length, IfOk, OnErr};
ghost use Rattle.pim_aig.specs.Graph.{IsAig, IsOfFirst, nodes};
ghost use Rattle.pim_aig.specs.Laws.{ValueLaws};
ghost use Rattle.pim_aig.specs.Literals.{plain};
ghost use Rattle.pim_aig.specs.declared.graph.TheConstants.{MAX_ANDS, MAX_INPUTS, MAX_OUTPUTS};

use crate::Lit;
use pim_io::NoMemory;
use std::alloc::Global;
use std::marker::Model;

/// The most AND nodes that a graph has.
pub const MAX_ANDS: u32 = 1_048_576;

/// The most inputs that a graph has: each is a signal of a netlist.
pub const MAX_INPUTS: u32 = pim_net::MAX_SIGNALS;

/// The most outputs that a graph has: those of a netlist.
pub const MAX_OUTPUTS: u32 = pim_net::MAX_OUTPUTS;

/// An AND node: the literals of its two operands, in their order.
#[derive(Clone, Copy, Debug, PartialEq, Eq)]
pub struct And {
    pub x: Lit,
    pub y: Lit,
}

/// An and-inverter graph. Node 0 is false, nodes 1 to I are the inputs, and the AND nodes follow, each after its operands.
#[derive(Debug, Drop)]
pub struct Aig {
    inputs: u32,
    ands: Vec<And>,
    outputs: Vec<Lit>,
}

impl Model for Aig {
    ghost use Rattle.pim_aig.specs.Graph.{AigView, IsAig};

    ghost Value = { AigView };

    ghost view = { λ g. record { inputs = g.inputs; ands = g.ands.items; outputs = g.outputs.items } };

    ghost invariant = { λ g. IsAig (record { inputs = g.inputs; ands = g.ands.items; outputs = g.outputs.items }) };
}

impl Aig {
    /// A graph of inputs alone.
    pub fn new(alloc: Global, inputs: u32) -> Aig
        requires { inputs ≤ MAX_INPUTS }
        ensures { result ≡ record { inputs = inputs; ands = []; outputs = [] } }
    {
        Aig {
            inputs,
            ands: Vec::new(alloc),
            outputs: Vec::new(alloc),
        }
    }

    /// Appends the AND of two literals, always as a new node, and gives that node's plain literal. Constant time.
    pub fn and(&mut self, x: Lit, y: Lit) -> Result<Lit, NoMemory>
        requires x_there { IsOfFirst (nodes self.old) x }
        requires y_there { IsOfFirst (nodes self.old) y }
        requires room { length self.old.ands < MAX_ANDS }
        ensures literal { IfOk result (λ l. l ≡ plain (nodes self.old)) }
        ensures grown { IfOk result (λ _. self.new ≡ record self.old { ands = self.old.ands ++ record { x = x; y = y } ∷ [] }) }
        ensures kept { OnErr result (self.new ≡ self.old) }
    {
        let node = 1 + self.inputs + self.ands.len() as u32;
        self.ands.push(And { x, y })?;
        Ok(Lit::plain(node))
    }

    /// Appends an output.
    pub fn add_output(&mut self, out: Lit) -> Result<(), NoMemory>
        requires there { IsOfFirst (nodes self.old) out }
        requires room { length self.old.outputs < MAX_OUTPUTS }
        ensures grown { IfOk result (λ _. self.new ≡ record self.old { outputs = self.old.outputs ++ out ∷ [] }) }
        ensures kept { OnErr result (self.new ≡ self.old) }
    {
        self.outputs.push(out)?;
        Ok(())
    }

    /// How many inputs the graph has.
    pub fn inputs(&self) -> u32
        ensures count { result ≡ self.now.inputs }
        ensures sound { IsAig self.now }
    {
        self.inputs
    }

    /// The AND nodes in order. Entry k is node 1 + I + k, with I the number of inputs.
    pub fn ands(&self) -> &[And]
        ensures nodes { result.now ≡ self.now.ands }
        ensures sound { IsAig self.now }
    {
        self.ands.as_slice()
    }

    /// The outputs in order.
    pub fn outputs(&self) -> &[Lit]
        ensures literals { result.now ≡ self.now.outputs }
        ensures sound { IsAig self.now }
    {
        self.outputs.as_slice()
    }

    /// The law of values, for those who read a graph: it computes nothing. At each assignment of the inputs node 0 is false,
    /// an input has its bit, an AND node is true where both of its operands are, and a complement where its literal is not.
    pub fn has_values(&self)
        ensures { ValueLaws self.now }
    {
        let _ = &self.ands;
    }
}
