ghost use Rattle.std.specs.Prelude.{◌≡◌, ◌+◌, ◌<◌, ◌≤◌, ◌∷◌, ◌++◌, [], Bool, List, None, length, take, IfOk, OnErr, OnOk};
ghost use Rattle.pim_aig.specs.Graph.{IsOfFirst};
ghost use Rattle.pim_aig.specs.Literals.{plain};
ghost use Rattle.pim_aig.specs.declared.graph.TheConstants.{MAX_INPUTS, MAX_OUTPUTS};
ghost use Rattle.pim_mig.specs.Graph.{IsMig, size};
ghost use Rattle.pim_mig.specs.Laws.{MajorityLaws};
ghost use Rattle.pim_mig.specs.Nodes.{made, made_by, simplified};
ghost use Rattle.pim_mig.specs.Values.{majority, mval};
ghost use Rattle.pim_mig.specs.declared.node.TheConstants.{MAX_NODES};

use crate::Maj;
use crate::node::Triple;
use indexmap::IndexSet;
use pim_aig::Lit;
use pim_io::NoMemory;
use std::alloc::Global;
use std::marker::Model;

/// A majority-inverter graph. Node 0 is false, nodes 1 to I are the inputs, and the majority nodes follow, each after its operands.
/// No node reads two literals of one node, and no two nodes read the same three literals.
#[derive(Debug, Drop)]
pub struct Mig {
    inputs: u32,
    nodes: Vec<Maj>,
    keys: IndexSet<Triple>,
    outputs: Vec<Lit>,
}

impl Model for Mig {
    ghost use Rattle.std.specs.Prelude.{◌≡◌, map};
    ghost use Rattle.pim_mig.specs.Graph.{IsMig, MigView};
    ghost use Rattle.pim_mig.specs.inner.Keys.{key_of};

    ghost Value = { MigView };

    ghost view = { λ g. record { inputs = g.inputs; nodes = g.nodes.items; outputs = g.outputs.items } };

    ghost invariant = { λ g. IsMig (record { inputs = g.inputs; nodes = g.nodes.items; outputs = g.outputs.items })
        × (g.keys.keys ≡ map key_of g.nodes.items) };
}

impl Mig {
    /// A graph of inputs alone.
    pub fn new(alloc: Global, inputs: u32) -> Mig
        requires { inputs ≤ MAX_INPUTS }
        ensures { result ≡ record { inputs = inputs; nodes = []; outputs = [] } }
    {
        Mig {
            inputs,
            nodes: Vec::new(alloc),
            keys: IndexSet::new(alloc),
            outputs: Vec::new(alloc),
        }
    }

    /// The majority of three literals, as a literal of the graph: where two are the same, that one; where two are complements, the
    /// third; else the plain literal of the node that reads the same three in any order, or of a new one. Expected constant time.
    pub fn node(&mut self, x: Lit, y: Lit, z: Lit) -> Result<Lit, NoMemory>
        requires x_there { IsOfFirst (size self.old) x }
        requires y_there { IsOfFirst (size self.old) y }
        requires z_there { IsOfFirst (size self.old) z }
        requires room { length self.old.nodes < MAX_NODES }
        ensures literal { IfOk result (λ l. l ≡ (made self.old.inputs self.old.nodes (record { x = x; y = y; z = z })).lit) }
        ensures grown { OnOk result (self.new ≡ record self.old {
          nodes = (made self.old.inputs self.old.nodes (record { x = x; y = y; z = z })).nodes;
        }) }
        ensures kept { OnErr result (self.new ≡ self.old) }
        ensures there { IfOk result (IsOfFirst (size self.new)) }
        ensures older { OnOk result (take (length self.old.nodes) self.new.nodes ≡ self.old.nodes) }
        ensures no_fewer { OnOk result (length self.old.nodes ≤ length self.new.nodes) }
        ensures one_more { OnOk result (length self.new.nodes ≤ length self.old.nodes + 1) }
        ensures value { IfOk result (λ l. (bits : List Bool) → length bits ≡ self.old.inputs
            → mval self.new bits l ≡ majority (mval self.new bits x) (mval self.new bits y) (mval self.new bits z)) }
    {
        let node = Maj { x, y, z };
        if let Some(literal) = node.simplified() {
            self.has_values();
            return Ok(literal);
        }
        let place = self.share(node)?;
        self.has_values();
        Ok(Lit::plain(1 + self.inputs + place))
    }

    /// The place of the node that reads the same three literals, which is appended if there is none.
    fn share(&mut self, node: Maj) -> Result<u32, NoMemory>
        requires x_there { IsOfFirst (size self.old) node.x }
        requires y_there { IsOfFirst (size self.old) node.y }
        requires z_there { IsOfFirst (size self.old) node.z }
        requires room { length self.old.nodes < MAX_NODES }
        requires apart { simplified node ≡ None }
        ensures literal { IfOk result (λ place. plain (1 + self.old.inputs + place) ≡ (made_by None self.old.inputs self.old.nodes node).lit) }
        ensures grown { OnOk result (self.new ≡ record self.old { nodes = (made_by None self.old.inputs self.old.nodes node).nodes }) }
        ensures within { IfOk result (λ place. place < length self.new.nodes) }
        ensures kept { OnErr result (self.new ≡ self.old) }
    {
        self.nodes.reserve(1)?;
        let (place, is_new) = self.keys.insert_full(node.key())?;
        if !is_new {
            return Ok(place as u32);
        }
        self.nodes.push(node)?;
        Ok(place as u32)
    }

    /// Appends an output.
    pub fn add_output(&mut self, out: Lit) -> Result<(), NoMemory>
        requires there { IsOfFirst (size self.old) out }
        requires room { length self.old.outputs < MAX_OUTPUTS }
        ensures grown { IfOk result (λ _. self.new ≡ record self.old { outputs = self.old.outputs ++ out ∷ [] }) }
        ensures kept { OnErr result (self.new ≡ self.old) }
    {
        self.outputs.push(out)?;
        Ok(())
    }

    /// How many inputs the graph has.
    pub fn inputs(&self) -> u32
        ensures count { result ≡ self.now.inputs }
        ensures sound { IsMig self.now }
    {
        self.inputs
    }

    /// The majority nodes in order. Entry k is node 1 + I + k, with I the number of inputs.
    pub fn nodes(&self) -> &[Maj]
        ensures nodes { result.now ≡ self.now.nodes }
        ensures sound { IsMig self.now }
    {
        self.nodes.as_slice()
    }

    /// The outputs in order.
    pub fn outputs(&self) -> &[Lit]
        ensures literals { result.now ≡ self.now.outputs }
        ensures sound { IsMig self.now }
    {
        self.outputs.as_slice()
    }

    /// The law of values, for those who read a graph: it computes nothing. At each assignment of the inputs node 0 is false,
    /// an input has its bit, a majority node is true where two of its operands are, and a complement where its literal is not.
    pub fn has_values(&self)
        ensures { MajorityLaws self.now }
    {
        let _ = &self.nodes;
    }
}
