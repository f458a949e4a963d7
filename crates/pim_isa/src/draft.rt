ghost use Rattle.std.specs.Prelude.{◌≡◌, ℕ, ◌+◌, ◌<◌, ◌≤◌, ◌^◌, [], ◌∷◌, ◌++◌, true, false, ◌||◌, nat_le, if◌then◌else◌, length, slice_index_or, slice_set, Some, None, All, OnOk, OnErr};
ghost use Rattle.std.specs.Option.{option_or};
ghost use Rattle.pim_io.specs.Names.{label as label_of};
ghost use Rattle.pim_io.specs.declared.limits.TheConstants.{MAX_NAME};
ghost use Rattle.pim_isa.specs.PortLists.{input_ports};
ghost use Rattle.pim_isa.specs.Validity.{fault_of};
ghost use Rattle.pim_isa.specs.Sound.{HasLabel};

use crate::check;
use crate::instr::Instr;
use crate::invalid::Invalid;
use crate::port::Port;
use crate::target::Target;
use pim_io::{Name, NoMemory};
use std::alloc::Global;
use std::marker::Model;

/// The most cells that a program may have.
pub const MAX_CELLS: u32 = 1_048_576;

/// The most inputs and outputs that a program may have, counted together.
pub const MAX_PORTS: u32 = 268_435_456;

/// The most instructions that a program may have.
pub const MAX_INSTRS: u32 = 268_435_456;

/// A program that is not checked yet: it grows by one port or one instruction at a time.
#[derive(Debug, Drop)]
pub struct ProgramDraft {
    alloc: Global,
    pub(crate) target: Target,
    pub(crate) cells: u32,
    pub(crate) inputs: Vec<Port>,
    pub(crate) outputs: Vec<Port>,
    pub(crate) instrs: Vec<Instr>,

    // Which cells are inputs already: it grows up to the greatest input cell below `cells`.
    marks: Vec<bool>,

    // The place of the first input that isn't below `cells` or has the cell of an earlier one.
    bad_input: Option<usize>,
}

impl Model for ProgramDraft {
    ghost use Rattle.pim_isa.specs.Programs.{ProgramView};
    ghost use Rattle.pim_isa.specs.inner.Drafts.{IsDraft};

    ghost Value = { ProgramView };

    ghost view = { λ d. record {
      target = d.target;
      cells = d.cells;
      inputs = d.inputs.items;
      outputs = d.outputs.items;
      instrs = d.instrs.items;
    } };

    ghost invariant = { λ d. IsDraft d.cells d.inputs.items d.outputs.items d.marks.items d.bad_input };
}

impl ProgramDraft {
    /// A draft for the target with that many cells, without ports and instructions.
    pub fn new(alloc: Global, target: Target, cells: u32) -> ProgramDraft
        requires { cells ≤ MAX_CELLS }
        ensures { result ≡ record { target = target; cells = cells; inputs = []; outputs = []; instrs = [] } }
    {
        ProgramDraft {
            alloc,
            target,
            cells,
            inputs: Vec::new(alloc),
            outputs: Vec::new(alloc),
            instrs: Vec::new(alloc),
            marks: Vec::new(alloc),
            bad_input: None,
        }
    }

    /// Appends an input at the cell, with the label of this name. A call that is refused changes nothing.
    pub fn add_input(&mut self, cell: u32, name: &[u8]) -> Result<(), NoMemory>
        requires some { 0 < length name.now }
        requires short { length name.now ≤ MAX_NAME }
        ensures ok { OnOk result
            (self.new ≡ record self.old { inputs = self.old.inputs ++ (record { cell = cell; label = label_of name.now }) ∷ [] }) }
        ensures err { OnErr result (self.new ≡ self.old) }
    {
        let label = Name::label(self.alloc, name)?;
        make_room(&mut self.marks, self.cells, cell)?;
        let place = self.inputs.len();
        self.inputs.push(Port { cell, label })?;
        self.bad_input = first_bad(self.bad_input, &self.marks, self.cells, cell, place);
        mark(&mut self.marks, cell);
        Ok(())
    }

    /// Appends inputs with these labels, in the cells from 0 on.
    pub fn add_inputs(&mut self, labels: &[Name]) -> Result<(), NoMemory>
        requires { length labels.now < 2 ^ 32 }
        ensures { OnOk result (self.new ≡ record self.old { inputs = self.old.inputs ++ input_ports 0 labels.now }) }
    {
        let mut cell = 0;
        for label in labels {
            self.add_input(cell, label.bytes())?;
            cell += 1;
        }
        Ok(())
    }

    /// Appends an output at the cell, with the label of this name. A call that is refused changes nothing.
    pub fn add_output(&mut self, cell: u32, name: &[u8]) -> Result<(), NoMemory>
        requires some { 0 < length name.now }
        requires short { length name.now ≤ MAX_NAME }
        ensures ok { OnOk result
            (self.new ≡ record self.old { outputs = self.old.outputs ++ (record { cell = cell; label = label_of name.now }) ∷ [] }) }
        ensures err { OnErr result (self.new ≡ self.old) }
    {
        let label = Name::label(self.alloc, name)?;
        self.outputs.push(Port { cell, label })?;
        Ok(())
    }

    /// Appends an instruction. A call that is refused changes nothing.
    pub fn add(&mut self, instr: Instr) -> Result<(), NoMemory>
        ensures ok { OnOk result (self.new ≡ record self.old { instrs = self.old.instrs ++ instr ∷ [] }) }
        ensures err { OnErr result (self.new ≡ self.old) }
    {
        self.instrs.push(instr)?;
        Ok(())
    }

    /// The first fault: that of the ports, else that of the instructions in order.
    pub(crate) fn fault(&self) -> Option<Invalid>
        requires few_ports { length self.now.inputs + length self.now.outputs ≤ MAX_PORTS }
        requires few_instrs { length self.now.instrs ≤ MAX_INSTRS }
        ensures fault { result ≡ fault_of self.now }
        ensures small { self.now.cells ≤ MAX_CELLS }
        ensures input_labels { All HasLabel self.now.inputs }
        ensures output_labels { All HasLabel self.now.outputs }
    {
        let bad_port = self.bad_input.or(check::bad_output(
            self.cells,
            self.inputs.len(),
            &self.outputs,
        ));
        match bad_port {
            Some(place) => Some(Invalid::Port(place as u32)),
            None => check::first_instr_fault(self.target, self.cells, &self.instrs),
        }
    }
}

/// Fills up the marks so that the cell has one, if it is below `cells`.
fn make_room(marks: &mut Vec<bool>, cells: u32, cell: u32) -> Result<(), NoMemory>
    ensures room { OnOk result (cell < cells → cell < length marks.new.items) }
    ensures within { length marks.old.items ≤ cells → length marks.new.items ≤ cells }
    ensures same { (c : ℕ) → slice_index_or marks.new.items c false ≡ slice_index_or marks.old.items c false }
{
    if cell < cells && marks.len() <= cell as usize {
        marks.resize(cell as usize + 1, false)?;
    }
    Ok(())
}

/// The first place of an input at fault, where the input at `place` has the cell, and the marks are of those before it.
fn first_bad(
    bad: Option<usize>,
    marks: &[bool],
    cells: u32,
    cell: u32,
    place: usize,
) -> Option<usize>
    ensures { result ≡ option_or bad (if nat_le cells cell || slice_index_or marks.now cell false then Some place else None) }
{
    if bad.is_some() {
        bad
    } else if cell >= cells || is_marked(marks, cell) {
        Some(place)
    } else {
        None
    }
}

/// Marks the cell, if there is a mark for it.
fn mark(marks: &mut Vec<bool>, cell: u32)
    ensures { marks.new.items ≡ slice_set marks.old.items cell true }
{
    if let Some(mark) = marks.get_mut(cell as usize) {
        *mark = true;
    }
}

/// Whether the cell is marked.
fn is_marked(marks: &[bool], cell: u32) -> bool
    ensures { result ≡ slice_index_or marks.now cell false }
{
    marks.get(cell as usize).copied().unwrap_or(false)
}
