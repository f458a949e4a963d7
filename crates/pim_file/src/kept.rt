ghost use Rattle.std.specs.Prelude.{◌≡◌, OnOk};
ghost use Rattle.std.specs.Option.{ok_or};
ghost use Rattle.pim_io.specs.Names.{IsLabel, label as label_of};
ghost use Rattle.pim_text.specs.PortLines.{port_view};
ghost use Rattle.pim_file.specs.inner.Kept.{begun, with_input, with_output, with_instr, within_limit};

use crate::fault::FileFault;
use pim_io::NoMemory;
use pim_isa::{Instr, MAX_CELLS, ProgramDraft, Target};
use pim_text::PortLine;
use std::alloc::Global;
use std::marker::Model;

/// A draft that is kept while a binary file is read: none where the number of cells is above the limit, so that what follows is
/// judged and not kept.
#[derive(Debug, Drop)]
pub(crate) struct Kept {
    draft: Option<ProgramDraft>,
}

impl Model for Kept {
    ghost use Rattle.std.specs.Prelude.{Option};
    ghost use Rattle.pim_isa.specs.Programs.{ProgramView};

    ghost Value = { Option ProgramView };

    ghost view = { λ k. k.draft };
}

impl Kept {
    /// A draft without ports and instructions, if it has not too many cells.
    pub(crate) fn begun(alloc: Global, target: Target, cells: u32) -> Kept
        ensures { result ≡ within_limit (begun target cells) }
    {
        if cells > MAX_CELLS {
            return Kept { draft: None };
        }
        Kept {
            draft: Some(ProgramDraft::new(alloc, target, cells)),
        }
    }

    /// Adds an input.
    pub(crate) fn add_input(&mut self, port: PortLine) -> Result<(), NoMemory>
        requires label { IsLabel port.label.now }
        requires same { label_of port.label.now ≡ port.label.now }
        ensures { OnOk result (self.new ≡ with_input self.old (port_view port.entry)) }
    {
        match &mut self.draft {
            Some(draft) => draft.add_input(port.cell, port.label),
            None => Ok(()),
        }
    }

    /// Adds an output.
    pub(crate) fn add_output(&mut self, port: PortLine) -> Result<(), NoMemory>
        requires label { IsLabel port.label.now }
        requires same { label_of port.label.now ≡ port.label.now }
        ensures { OnOk result (self.new ≡ with_output self.old (port_view port.entry)) }
    {
        match &mut self.draft {
            Some(draft) => draft.add_output(port.cell, port.label),
            None => Ok(()),
        }
    }

    /// Adds an instruction.
    pub(crate) fn add(&mut self, instr: Instr) -> Result<(), NoMemory>
        ensures { OnOk result (self.new ≡ with_instr self.old instr) }
    {
        match &mut self.draft {
            Some(draft) => draft.add(instr),
            None => Ok(()),
        }
    }

    /// The draft, if it is kept to the end.
    pub(crate) fn into_draft(self) -> Result<ProgramDraft, FileFault>
        ensures { result ≡ ok_or self FileFault.TooLarge }
    {
        self.draft.ok_or(FileFault::TooLarge)
    }
}
