ghost use Rattle.std.specs.Prelude.{◌≡◌, ℕ, ◌<◌, ◌++◌, length, take, OnOk, IfOk, Ok, Err};
ghost use Rattle.pim_imply.specs.declared.fault.ImplyFault.TheVariants as faults;
ghost use Rattle.pim_imply.specs.Reading.{imply_of};
ghost use Rattle.pim_imply.specs.Text.{imply_text, instrs_text, text as text_of};

use crate::draft::ImplyDraft;
use crate::instr::ImplyInstr;
use crate::program::ImplyProgram;
use pim_io::NoMemory;
use pim_text::{Text, line_laws, push_ports, text_laws};
use std::alloc::Global;

/// An instruction, without its newline.
fn push_instr(text: &mut Text, instr: ImplyInstr) -> Result<(), NoMemory>
    ensures { OnOk result (text.new ≡ text.old ++ imply_text instr) }
{
    match instr {
        ImplyInstr::False(q) => text.statement(b"false", &[q]),
        ImplyInstr::Imp { p, q } => text.statement(b"imp", &[p, q]),
    }
}

/// A line for each instruction.
fn push_instrs(text: &mut Text, instrs: &[ImplyInstr]) -> Result<(), NoMemory>
    ensures { OnOk result (text.new ≡ text.old ++ instrs_text instrs.now) }
{
    for instr in instrs {
        push_instr(text, *instr)?;
        text.bytes(b"\n")?;
    }
    Ok(())
}

/// The text of a program. Linear in the program.
pub fn print_imply(alloc: Global, program: &ImplyProgram) -> Result<Vec<u8>, NoMemory>
    ensures text { IfOk result (λ bytes. bytes.items ≡ text_of program.now) }

    // The text is read as the program again, and a front of it as cut off.
    ensures again { IfOk result (λ bytes. imply_of bytes.items ≡ Ok program.now) }
    ensures cut { IfOk result (λ bytes. (k : ℕ) → k < length bytes.items → imply_of (take k bytes.items) ≡ Err faults.Truncated) }
{
    line_laws();
    text_laws::<ImplyDraft>();
    let mut text = Text::new(alloc);
    text.counted(b"imply 1\ncells ", program.cells())?;
    push_ports(&mut text, b"input ", program.inputs())?;
    push_ports(&mut text, b"output ", program.outputs())?;
    let instrs = program.instrs();
    text.counted(b"cycles ", instrs.len() as u32)?;
    push_instrs(&mut text, instrs)?;
    text.bytes(b"end\n")?;
    Ok(text.into_bytes())
}
