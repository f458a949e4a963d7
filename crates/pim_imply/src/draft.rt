ghost use Rattle.std.specs.Prelude.{◌≡◌, ◌^◌, ◌<◌, ◌≤◌, [], ◌∷◌, ◌++◌, length, IfOk, OnOk, OnErr};
ghost use Rattle.pim_io.specs.Names.{label as label_of};
ghost use Rattle.pim_io.specs.declared.limits.TheConstants.{MAX_NAME};
ghost use Rattle.pim_isa.specs.PortLists.{input_ports};
ghost use Rattle.pim_imply.specs.Reading.{imply_kind, imply_parts};

use crate::instr::ImplyInstr;
use crate::lines::instr_of;
use pim_io::{Name, NoMemory};
use pim_isa::{MAX_CELLS, ProgramDraft, Target};
use pim_text::{Draft, PortLine, line_laws};
use std::alloc::Global;
use std::marker::Model;

/// A program that is not checked yet: it grows by one port or one instruction at a time.
#[derive(Debug, Drop)]
pub struct ImplyDraft {
    // The cells and the ports, and no instruction.
    pub(crate) body: ProgramDraft,
    pub(crate) instrs: Vec<ImplyInstr>,
}

impl Model for ImplyDraft {
    ghost use Rattle.pim_imply.specs.Programs.{ImplyView};
    ghost use Rattle.pim_imply.specs.inner.Bodies.{IsBody, with_body};

    ghost Value = { ImplyView };

    ghost view = { λ d. with_body d.body d.instrs.items };

    ghost invariant = { λ d. IsBody d.body };
}

impl ImplyDraft {
    /// A draft with that many cells, without ports and instructions.
    pub fn new(alloc: Global, cells: u32) -> ImplyDraft
        requires { cells ≤ MAX_CELLS }
        ensures { result ≡ record { cells = cells; inputs = []; outputs = []; instrs = [] } }
    {
        ImplyDraft {
            body: ProgramDraft::new(alloc, Target::Plim, cells),
            instrs: Vec::new(alloc),
        }
    }

    /// A draft with that many cells and inputs with these labels, in the cells from 0 on.
    pub(crate) fn with_inputs(
        alloc: Global,
        cells: u32,
        labels: &[Name],
    ) -> Result<ImplyDraft, NoMemory>
        requires within { cells ≤ MAX_CELLS }
        requires few { length labels.now < 2 ^ 32 }
        ensures { IfOk result (λ draft. draft ≡ record { cells = cells; inputs = input_ports 0 labels.now; outputs = []; instrs = [] }) }
    {
        let mut body = ProgramDraft::new(alloc, Target::Plim, cells);
        body.add_inputs(labels)?;
        Ok(ImplyDraft {
            body,
            instrs: Vec::new(alloc),
        })
    }

    /// Appends an input at the cell, with the label of this name. A call that is refused changes nothing.
    pub fn add_input(&mut self, cell: u32, label: &[u8]) -> Result<(), NoMemory>
        requires some { 0 < length label.now }
        requires short { length label.now ≤ MAX_NAME }
        ensures ok { OnOk result
            (self.new ≡ record self.old { inputs = self.old.inputs ++ (record { cell = cell; label = label_of label.now }) ∷ [] }) }
        ensures err { OnErr result (self.new ≡ self.old) }
    {
        self.body.add_input(cell, label)
    }

    /// Appends an output at the cell, with the label of this name. A call that is refused changes nothing.
    pub fn add_output(&mut self, cell: u32, label: &[u8]) -> Result<(), NoMemory>
        requires some { 0 < length label.now }
        requires short { length label.now ≤ MAX_NAME }
        ensures ok { OnOk result
            (self.new ≡ record self.old { outputs = self.old.outputs ++ (record { cell = cell; label = label_of label.now }) ∷ [] }) }
        ensures err { OnErr result (self.new ≡ self.old) }
    {
        self.body.add_output(cell, label)
    }

    /// Appends an instruction. A call that is refused changes nothing.
    pub fn add(&mut self, instr: ImplyInstr) -> Result<(), NoMemory>
        ensures ok { OnOk result (self.new ≡ record self.old { instrs = self.old.instrs ++ instr ∷ [] }) }
        ensures err { OnErr result (self.new ≡ self.old) }
    {
        self.instrs.push(instr)?;
        Ok(())
    }
}

impl Draft for ImplyDraft {
    type Instr = ImplyInstr;

    ghost kind = { imply_kind };

    ghost parts = { λ d. imply_parts d };

    fn first_line() -> &'static [u8] {
        b"imply 1"
    }

    fn only_target() -> Option<Target> {
        Some(Target::Plim)
    }

    fn instr(_alloc: Global, line: &[u8]) -> Result<Option<ImplyInstr>, NoMemory> {
        Ok(instr_of(line))
    }

    fn begun(alloc: Global, _target: Target, cells: u32) -> ImplyDraft {
        ImplyDraft::new(alloc, cells)
    }

    fn put_input(&mut self, port: PortLine) -> Result<(), NoMemory> {
        self.add_input(port.cell, port.label)
    }

    fn put_output(&mut self, port: PortLine) -> Result<(), NoMemory> {
        self.add_output(port.cell, port.label)
    }

    fn put(&mut self, instr: ImplyInstr) -> Result<(), NoMemory> {
        self.add(instr)
    }

    fn tell_kind() {
        line_laws();
    }
}
