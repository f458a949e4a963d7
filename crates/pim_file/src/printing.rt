ghost use Rattle.std.specs.Prelude.{◌≡◌, ℕ, ◌<◌, [], ◌∷◌, ◌++◌, length, take, OnOk, IfOk, Ok, Err, codes, decimal};
ghost use Rattle.pim_file.specs.declared.fault.FileFault.TheVariants as faults;
ghost use Rattle.pim_file.specs.ProgramFile.{parse1_of};
ghost use Rattle.pim_file.specs.Text.{head_text, instrs_text, text as text_of};

use pim_io::NoMemory;
use pim_isa::{Instr, Program, ProgramDraft, Target};
use pim_text::{Text, line_laws, push_instr, push_ports, target_name, text_laws};
use std::alloc::Global;

/// The lines before the ports.
fn push_head(text: &mut Text, target: Target, cells: u32) -> Result<(), NoMemory>
    ensures { OnOk result (text.new ≡ text.old ++ head_text target cells) }
{
    text.bytes(b"pim 1\ntarget ")?;
    text.bytes(target_name(target))?;
    text.counted(b"\ncells ", cells)
}

/// A line for each instruction.
fn push_instrs(text: &mut Text, instrs: &[Instr]) -> Result<(), NoMemory>
    ensures { OnOk result (text.new ≡ text.old ++ instrs_text instrs.now) }
{
    for instr in instrs {
        push_instr(text, instr)?;
        text.bytes(b"\n")?;
    }
    Ok(())
}

/// The text of a program, form 1. Linear in the program.
pub fn print(alloc: Global, program: &Program) -> Result<Vec<u8>, NoMemory>
    ensures text { IfOk result (λ bytes. bytes.items ≡ text_of program.now) }

    // The text is read as the program again, and a front of it as cut off.
    ensures again { IfOk result (λ bytes. parse1_of bytes.items ≡ Ok program.now) }
    ensures cut { IfOk result (λ bytes. (k : ℕ) → k < length bytes.items → parse1_of (take k bytes.items) ≡ Err faults.Truncated) }
{
    line_laws();
    text_laws::<ProgramDraft>();
    let mut text = Text::new(alloc);
    push_head(&mut text, program.target(), program.cells())?;
    push_ports(&mut text, b"input ", program.inputs())?;
    push_ports(&mut text, b"output ", program.outputs())?;
    text.counted(b"cycles ", program.instrs().len() as u32)?;
    push_instrs(&mut text, program.instrs())?;
    text.bytes(b"end\n")?;
    Ok(text.into_bytes())
}
