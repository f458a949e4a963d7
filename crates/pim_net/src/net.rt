ghost use Rattle.std.specs.Prelude.{◌≡◌, ◌<◌, ◌≤◌, ◌⊎◌, ℕ, List, All, length, Some, None, slice_get, IfOk, IfErr, OnOk};
ghost use Rattle.pim_io.specs.Names.{label};
ghost use Rattle.pim_net.specs.Labels.{IsName};

use crate::judge::judge;
use crate::{Draft, Equation, Names, NetFault, OutRef};
use std::alloc::Global;
use std::marker::Model;

/// A netlist whose signals all have one driver and a depth. An input has depth 0. An equation's depth is one more than
/// the greatest depth of its columns, and 1 without columns.
#[derive(Debug, Drop)]
pub struct Net {
    inputs: Vec<u32>,
    input_labels: Names,
    equations: Vec<Equation>,
    outputs: Vec<OutRef>,
    output_labels: Names,
    topo: Vec<u32>,
}

impl Model for Net {
    ghost use Rattle.pim_net.specs.Netlist.{NetView};
    ghost use Rattle.pim_net.specs.WellFormed.{IsNet};

    ghost Value = { NetView };

    ghost view = { λ n. record {
      inputs = n.inputs.items;
      input_labels = n.input_labels;
      equations = n.equations.items;
      outputs = n.outputs.items;
      output_labels = n.output_labels;
      topo = n.topo.items;
    } };

    ghost invariant = { λ n. IsNet (record {
      inputs = n.inputs.items;
      input_labels = n.input_labels;
      equations = n.equations.items;
      outputs = n.outputs.items;
      output_labels = n.output_labels;
      topo = n.topo.items;
    }) };
}

impl Net {
    ghost use Rattle.pim_net.specs.Netlist.{draft_of};
    ghost use Rattle.pim_net.specs.Cycles.{IsCycle};
    ghost use Rattle.pim_net.specs.Faults.{net_fault};
    ghost use Rattle.pim_net.specs.Laws.{HasValues, HasInputValues, HasCoverValues};
    ghost use Rattle.pim_net.specs.WellFormed.{IsNet, IsWellFormed};
    ghost use Rattle.pim_net.specs.declared.fault.NetFault.TheVariants.{Cycle, NoMemory};

    /// Judges a draft: it is a netlist where each signal has at most one driver, each signal that is read has one, and
    /// each equation has a depth. A netlist keeps the draft's lists; a refusal is the draft's one fault, and the signals of
    /// a cycle are one. Expected linear in the size of the draft, however great the numbers of its signals are.
    pub fn check(alloc: Global, draft: Draft) -> Result<Net, NetFault>
        ensures kept { IfOk result (λ net. draft_of net ≡ draft) }
        ensures accepted { OnOk result (net_fault draft ≡ None) }
        ensures checked { IfOk result IsNet }
        ensures exact { IsWellFormed draft.inputs draft.equations draft.outputs → IfErr result (λ fault. fault ≡ NoMemory) }
        ensures refused { IfErr result (λ fault. (fault ≡ NoMemory) ⊎ (net_fault draft ≡ Some fault)) }
        ensures cycle { IfErr result (λ fault. (signals : List ℕ) → fault ≡ Cycle signals → IsCycle draft.equations signals) }
    {
        let Draft {
            inputs,
            input_labels,
            equations,
            outputs,
            output_labels,
        } = draft;
        let topo = judge(
            alloc,
            inputs.as_slice(),
            equations.as_slice(),
            outputs.as_slice(),
        )?;
        Ok(Net {
            inputs,
            input_labels,
            equations,
            outputs,
            output_labels,
            topo,
        })
    }

    /// The signals of the inputs, in order.
    pub fn inputs(&self) -> &[u32]
        ensures inputs { result.now ≡ self.now.inputs }
        ensures checked { IsNet self.now }
    {
        self.inputs.as_slice()
    }

    /// The label of input k: 1 to 4,096 bytes.
    pub fn input_label(&self, k: u32) -> &[u8]
        requires { k < length self.now.input_labels }
        ensures label { slice_get self.now.input_labels k ≡ Some result.now }
        ensures bytes { IsName result.now }
        ensures same { label result.now ≡ result.now }
    {
        self.input_labels.get(k)
    }

    /// The equations, in order.
    pub fn equations(&self) -> &[Equation]
        ensures equations { result.now ≡ self.now.equations }
        ensures checked { IsNet self.now }
    {
        self.equations.as_slice()
    }

    /// The outputs, in order.
    pub fn outputs(&self) -> &[OutRef]
        ensures outputs { result.now ≡ self.now.outputs }
        ensures checked { IsNet self.now }
    {
        self.outputs.as_slice()
    }

    /// The label of output k: 1 to 4,096 bytes.
    pub fn output_label(&self, k: u32) -> &[u8]
        requires { k < length self.now.output_labels }
        ensures label { slice_get self.now.output_labels k ≡ Some result.now }
        ensures bytes { IsName result.now }
        ensures same { label result.now ≡ result.now }
    {
        self.output_labels.get(k)
    }

    /// The numbers of the equations, by depth and then in order.
    pub fn topo(&self) -> &[u32]
        ensures topo { result.now ≡ self.now.topo }
        ensures within { All (λ k. k < length self.now.equations) result.now }
        ensures checked { IsNet self.now }
    {
        self.topo.as_slice()
    }

    /// The law of values, for those who read a netlist: it computes nothing. With a bit per input, every signal that is
    /// driven has a value, that of an input its bit, and that of an equation the value of its cover at the values of its
    /// columns.
    pub fn has_values(&self)
        ensures driven { HasValues self.now }
        ensures inputs { HasInputValues self.now }
        ensures covers { HasCoverValues self.now }
    {
        let _ = &self.topo;
    }
}
