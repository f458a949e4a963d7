ghost use Rattle.std.specs.Prelude.{◌≡◌, ◌<◌, ◌+◌, ◌++◌, ◌∷◌, [], length, OnOk, OnErr};
ghost use Rattle.pim_io.specs.Names.{label};
ghost use Rattle.pim_net.specs.Labels.{IsName};
ghost use Rattle.pim_net.specs.declared.limits.TheConstants.{MAX_EQUATIONS, MAX_OUTPUTS, MAX_SIGNALS};

use crate::{Cover, Equation, Names, OutRef};
use pim_io::NoMemory;
use std::alloc::Global;
use std::marker::Model;

/// What a reader gathers of a netlist: inputs, equations and outputs, each in order. Nothing is judged yet.
#[derive(Debug, Drop)]
pub struct Draft {
    pub(crate) inputs: Vec<u32>,
    pub(crate) input_labels: Names,
    pub(crate) equations: Vec<Equation>,
    pub(crate) outputs: Vec<OutRef>,
    pub(crate) output_labels: Names,
}

impl Model for Draft {
    ghost use Rattle.pim_net.specs.Netlist.{DraftView, IsDraft};

    ghost Value = { DraftView };

    ghost view = { λ d. record {
      inputs = d.inputs.items;
      input_labels = d.input_labels;
      equations = d.equations.items;
      outputs = d.outputs.items;
      output_labels = d.output_labels;
    } };

    ghost invariant = { λ d. IsDraft (record {
      inputs = d.inputs.items;
      input_labels = d.input_labels;
      equations = d.equations.items;
      outputs = d.outputs.items;
      output_labels = d.output_labels;
    }) };
}

impl Draft {
    ghost use Rattle.pim_net.specs.Netlist.{DraftView};

    /// An empty draft. It takes no memory.
    pub fn new(alloc: Global) -> Draft
        ensures { result ≡ record { inputs = []; input_labels = []; equations = []; outputs = []; output_labels = [] } }
    {
        Draft {
            inputs: Vec::new(alloc),
            input_labels: Names::new(alloc),
            equations: Vec::new(alloc),
            outputs: Vec::new(alloc),
            output_labels: Names::new(alloc),
        }
    }

    /// Adds an input of this signal, and the label of its name. After a refusal the draft is as before.
    pub fn add_input(&mut self, sig: u32, name: &[u8]) -> Result<(), NoMemory>
        requires below { sig < MAX_SIGNALS }
        requires labelled { IsName name.now }
        requires room { length self.old.inputs < MAX_SIGNALS }
        ensures ok { OnOk result (self.new ≡ record self.old {
          inputs = self.old.inputs ++ sig ∷ [];
          input_labels = self.old.input_labels ++ label name.now ∷ [];
        }) }
        ensures err { OnErr result (self.new ≡ self.old) }
    {
        self.inputs.reserve(1)?;
        self.input_labels.push(name)?;
        self.inputs.push(sig)?;
        Ok(())
    }

    /// Adds the equation of this signal. After a refusal the draft is as before, and the cover is dropped.
    pub fn add_cover(&mut self, sig: u32, cover: Cover) -> Result<(), NoMemory>
        requires below { sig < MAX_SIGNALS }
        requires room { length self.old.equations + 1 < MAX_EQUATIONS }
        ensures ok { OnOk result (self.new ≡ record self.old {
          equations = self.old.equations ++ record { sig = sig; cover = cover } ∷ [];
        }) }
        ensures err { OnErr result (self.new ≡ self.old) }
    {
        // It tells that the rows are whole.
        let _rows = cover.row_count();
        self.equations.push(Equation { sig, cover })?;
        Ok(())
    }

    /// Adds an output, and the label of its name. After a refusal the draft is as before.
    pub fn add_output(&mut self, out: OutRef, name: &[u8]) -> Result<(), NoMemory>
        requires below { out.sig < MAX_SIGNALS }
        requires labelled { IsName name.now }
        requires room { length self.old.outputs < MAX_OUTPUTS }
        ensures ok { OnOk result (self.new ≡ record self.old {
          outputs = self.old.outputs ++ out ∷ [];
          output_labels = self.old.output_labels ++ label name.now ∷ [];
        }) }
        ensures err { OnErr result (self.new ≡ self.old) }
    {
        self.outputs.reserve(1)?;
        self.output_labels.push(name)?;
        self.outputs.push(out)?;
        Ok(())
    }
}
