ghost use Rattle.pim_text.specs.ProgramTexts.{program_kind, program_parts};

use crate::draft::Draft;
use crate::instrs::line_instr;
use crate::laws::line_laws;
use crate::lines::PortLine;
use pim_io::NoMemory;
use pim_isa::{Instr, ProgramDraft, Target};
use std::alloc::Global;

/// A draft of a program for MAGIC or PLiM.
impl Draft for ProgramDraft {
    type Instr = Instr;

    ghost kind = { program_kind };

    ghost parts = { λ d. program_parts d };

    fn first_line() -> &'static [u8] {
        b"pim 1"
    }

    fn only_target() -> Option<Target> {
        None
    }

    fn instr(alloc: Global, line: &[u8]) -> Result<Option<Instr>, NoMemory> {
        line_instr(alloc, line)
    }

    fn begun(alloc: Global, target: Target, cells: u32) -> ProgramDraft {
        ProgramDraft::new(alloc, target, cells)
    }

    fn put_input(&mut self, port: PortLine) -> Result<(), NoMemory> {
        self.add_input(port.cell, port.label)
    }

    fn put_output(&mut self, port: PortLine) -> Result<(), NoMemory> {
        self.add_output(port.cell, port.label)
    }

    fn put(&mut self, instr: Instr) -> Result<(), NoMemory> {
        self.add(instr)
    }

    fn tell_kind() {
        line_laws();
    }
}
