ghost use Rattle.std.specs.Prelude.{◌≡◌, ◌<◌, ◌≤◌, [], ◌∷◌, ◌++◌, length, OnOk, OnErr};
ghost use Rattle.pim_io.specs.Names.{label as label_of};
ghost use Rattle.pim_io.specs.declared.limits.TheConstants.{MAX_NAME};

use pim_io::{Name, NoMemory};
use std::alloc::Global;
use std::marker::Model;

/// An input or an output of a program: the cell that it lies in, and its label.
#[derive(Debug, Drop)]
pub struct Port {
    pub cell: u32,
    pub label: Name,
}

/// The labels of a program's inputs and outputs, before any cell is chosen.
#[derive(Debug, Drop)]
pub struct Ports {
    alloc: Global,
    inputs: Vec<Name>,
    outputs: Vec<Name>,
}

impl Model for Ports {
    ghost use Rattle.pim_isa.specs.Programs.{PortsView};

    ghost Value = { PortsView };

    ghost view = { λ p. record { inputs = p.inputs.items; outputs = p.outputs.items } };
}

impl Ports {
    /// No ports.
    pub fn new(alloc: Global) -> Ports
        ensures { result ≡ record { inputs = []; outputs = [] } }
    {
        Ports {
            alloc,
            inputs: Vec::new(alloc),
            outputs: Vec::new(alloc),
        }
    }

    /// Appends an input with the label of this name. A call that is refused changes nothing.
    pub fn add_input(&mut self, name: &[u8]) -> Result<(), NoMemory>
        requires some { 0 < length name.now }
        requires short { length name.now ≤ MAX_NAME }
        ensures ok { OnOk result (self.new ≡ record self.old { inputs = self.old.inputs ++ label_of name.now ∷ [] }) }
        ensures err { OnErr result (self.new ≡ self.old) }
    {
        self.inputs.push(Name::label(self.alloc, name)?)?;
        Ok(())
    }

    /// Appends an output with the label of this name. A call that is refused changes nothing.
    pub fn add_output(&mut self, name: &[u8]) -> Result<(), NoMemory>
        requires some { 0 < length name.now }
        requires short { length name.now ≤ MAX_NAME }
        ensures ok { OnOk result (self.new ≡ record self.old { outputs = self.old.outputs ++ label_of name.now ∷ [] }) }
        ensures err { OnErr result (self.new ≡ self.old) }
    {
        self.outputs.push(Name::label(self.alloc, name)?)?;
        Ok(())
    }

    /// The labels of the inputs, in order.
    pub fn inputs(&self) -> &[Name]
        ensures { result.now ≡ self.now.inputs }
    {
        self.inputs.as_slice()
    }

    /// The labels of the outputs, in order.
    pub fn outputs(&self) -> &[Name]
        ensures { result.now ≡ self.now.outputs }
    {
        self.outputs.as_slice()
    }
}
