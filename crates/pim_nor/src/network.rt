ghost use Rattle.std.specs.Prelude.{◌≡◌, ◌<◌, ◌≤◌, ◌^◌, ℕ, length, IfOk};
ghost use Rattle.pim_graph.specs.Graphs.{kids_of};
ghost use Rattle.pim_graph.specs.Orders.{IsReached, order};
ghost use Rattle.pim_graph.specs.Readers.{occurrences};
ghost use Rattle.pim_nor.specs.GateGraphs.{graph_of};
ghost use Rattle.pim_nor.specs.Laws.{HasGateValues};
ghost use Rattle.pim_nor.specs.Network.{IsNetwork, nor_count};
ghost use Rattle.pim_nor.specs.inner.Reading.{reading};

use crate::gate_graph::graph_of;
use pim_aig::{MAX_ANDS, MAX_INPUTS};
use pim_graph::Graph;
use pim_io::NoMemory;
use std::alloc::Global;
use std::marker::Model;

/// The most gates that a network has: two for the constants, one for each input and two for each AND node of its graph.
pub const MAX_GATES: u32 = 2 + MAX_INPUTS + 2 * MAX_ANDS;

/// What a gate or an output reads: an input, or a gate of the network, by its number.
#[derive(Clone, Copy, Debug, PartialEq, Eq)]
pub enum Pin {
    Input(u32),
    Gate(u32),
}

/// A gate. `One` is true and reads nothing; each other gate is true where none of its operands is.
#[derive(Clone, Copy, Debug, PartialEq, Eq)]
pub enum Gate {
    One,
    Not(Pin),
    Nor(Pin, Pin),
    Nor3(Pin, Pin, Pin),
    Nor4(Pin, Pin, Pin, Pin),
}

impl Gate {
    /// The gate that reads one more pin. A gate of four reads no more.
    pub(crate) fn reading(self, pin: Pin) -> Gate
        ensures { result ≡ reading self pin }
    {
        match self {
            Gate::One => Gate::Not(pin),
            Gate::Not(a) => Gate::Nor(a, pin),
            Gate::Nor(a, b) => Gate::Nor3(a, b, pin),
            Gate::Nor3(a, b, c) => Gate::Nor4(a, b, c, pin),
            Gate::Nor4(..) => self,
        }
    }
}

/// A network of gates, each of which stands after those that it reads, and what its outputs read.
#[derive(Debug, Drop)]
pub struct NorNet {
    inputs: u32,
    gates: Vec<Gate>,
    outs: Vec<Pin>,
    nors: u32,
    graph: Graph,
}

impl Model for NorNet {
    ghost use Rattle.std.specs.Prelude.{◌≡◌};
    ghost use Rattle.pim_nor.specs.GateGraphs.{graph_of};
    ghost use Rattle.pim_nor.specs.Network.{NorView, IsNetwork, nor_count};

    ghost Value = { NorView };

    ghost view = { λ n. record { inputs = n.inputs; gates = n.gates.items; outs = n.outs.items } };

    ghost invariant = { λ n. IsNetwork (record { inputs = n.inputs; gates = n.gates.items; outs = n.outs.items })
        × (n.nors ≡ nor_count n.gates.items)
        × (n.graph ≡ graph_of (record { inputs = n.inputs; gates = n.gates.items; outs = n.outs.items })) };
}

impl NorNet {
    /// A network of these gates and outputs. Linear in the gates, which it counts and puts into a graph.
    pub(crate) fn new(
        alloc: Global,
        inputs: u32,
        gates: Vec<Gate>,
        outs: Vec<Pin>,
    ) -> Result<NorNet, NoMemory>
        requires { IsNetwork (record { inputs = inputs; gates = gates.items; outs = outs.items }) }
        ensures { IfOk result
            (λ network. network ≡ record { inputs = inputs; gates = gates.items; outs = outs.items }) }
    {
        let nors = nor_count(&gates);
        let graph = graph_of(alloc, &gates, &outs)?;
        Ok(NorNet {
            inputs,
            gates,
            outs,
            nors,
            graph,
        })
    }

    /// How many inputs the network has.
    pub fn inputs(&self) -> u32
        ensures count { result ≡ self.now.inputs }
        ensures sound { IsNetwork self.now }
    {
        self.inputs
    }

    /// The gates, each after those that it reads.
    pub fn gates(&self) -> &[Gate]
        ensures gates { result.now ≡ self.now.gates }
        ensures sound { IsNetwork self.now }
    {
        self.gates.as_slice()
    }

    /// What the outputs read, in their order.
    pub fn outs(&self) -> &[Pin]
        ensures pins { result.now ≡ self.now.outs }
        ensures sound { IsNetwork self.now }
    {
        self.outs.as_slice()
    }

    /// The graph of the gates: gate k reads the gates among its operands, in their order and each once, and the roots are
    /// the gates of the outputs, in the order of the outputs and each once. Constant time.
    pub fn graph(&self) -> &Graph
        ensures graph { result.now ≡ graph_of self.now }
        ensures once { (gate child : ℕ) → occurrences (kids_of (graph_of self.now) gate) child ≤ 1 }

        // Its roots reach each gate, so its order holds all gates.
        ensures reached { (gate : ℕ) → gate < length self.now.gates → IsReached (graph_of self.now) gate }
        ensures full { length (order (graph_of self.now)) ≡ length self.now.gates }
    {
        self.graph.has_order();
        &self.graph
    }

    /// How many of the gates are a NOR or a NOT: all but `One`. Constant time.
    pub fn nors(&self) -> u32
        ensures { result ≡ nor_count self.now.gates }
    {
        self.nors
    }

    /// The law of values, for those who read a network: it computes nothing. Each gate is true where nothing that it reads
    /// is.
    pub fn has_values(&self)
        ensures { HasGateValues self.now }
    {
        let _ = &self.gates;
    }
}

/// How many of the gates read something.
fn nor_count(gates: &[Gate]) -> u32
    requires { length gates.now < 2 ^ 28 }
    ensures { result ≡ nor_count gates.now }
{
    let mut count = 0;
    for gate in gates {
        if !matches!(gate, Gate::One) {
            count += 1;
        }
    }
    count
}
