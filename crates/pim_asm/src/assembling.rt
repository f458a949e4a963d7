ghost use Rattle.std.specs.Prelude.{◌≤◌, length, IfOk};
ghost use Rattle.pim_io.specs.Lines.{lines};
ghost use Rattle.pim_io.specs.Readings.{Gives};
ghost use Rattle.pim_asm.specs.Assembly.{read_from, asm_of};
ghost use Rattle.pim_asm.specs.Assembly as assembly;
ghost use Rattle.pim_text.specs.Parts.{HasFewParts};
ghost use Rattle.pim_text.specs.ProgramTexts.{program_parts};

use crate::assembler::Assembler;
use crate::fault::AsmFault;
use pim_io::{MAX_PROGRAM, Scan};
use pim_isa::{Program, ProgramDraft};
use std::alloc::Global;

/// The program that a text of assembly is, or the first fault: the first line that is wrong or has a wrong name, else what
/// makes the program invalid. Linear in the bytes.
#[tactic(auto, unfolding(crate::specs::Assembly::asm_of))]
pub fn assemble(alloc: Global, bytes: &[u8]) -> Result<Program, AsmFault>
    requires { length bytes.now ≤ MAX_PROGRAM }
    ensures exact { Gives AsmFault.NoMemory (λ program. program) result (asm_of bytes.now) }
{
    let draft = draft(alloc, bytes)?;
    Ok(Program::new(draft)?)
}

/// The draft of a text of assembly, not checked yet.
fn draft(alloc: Global, bytes: &[u8]) -> Result<ProgramDraft, AsmFault>
    requires { length bytes.now ≤ MAX_PROGRAM }
    ensures exact { Gives AsmFault.NoMemory (λ draft. draft) result (read_from 1 assembly.Start (lines bytes.now)) }
    ensures few { IfOk result (λ draft. HasFewParts (program_parts draft)) }
{
    let mut assembler = Assembler::new(alloc);
    let mut scan = Scan::new(bytes);
    let mut next = 1;
    while let Some(line) = scan.line() {
        assembler.line(line)?;
        next += 1;
    }
    assembler.finish(next)
}
