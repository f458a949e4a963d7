ghost use Rattle.std.specs.Prelude.{◌≡◌, ◌≤◌, ◌↔◌, ◌⊎◌, [], length, Ok, IfOk, IsTrue};
ghost use Rattle.pim_io.specs.Lines.{lines};
ghost use Rattle.pim_isa.specs.Programs.{ProgramView};
ghost use Rattle.pim_isa.specs.Sound.{IsProgram};
ghost use Rattle.pim_file.specs.Spelled.{HasText};
ghost use Rattle.pim_text.specs.Parts.{HasFewParts};
ghost use Rattle.pim_text.specs.ProgramTexts.{program_parts};
ghost use Rattle.pim_io.specs.Readings.{Gives};
ghost use Rattle.pim_file.specs.Text.{text as text_of};
ghost use Rattle.pim_file.specs.Right.{first_wrong, is_cut_off, wrong_line, is_truncated};
ghost use Rattle.pim_file.specs.ProgramFile.{draft_of, sized_draft_of, parse1_of};
ghost use Rattle.pim_file.specs.Binary.{bin};
ghost use Rattle.pim_file.specs.BinaryReading.{is_binary, draft2_of, parse_of};
ghost use Rattle.pim_file.specs.BinarySpelled.{HasBinary};

use crate::binary::{has_tag, parse_binary};
use crate::fault::FileFault;
use pim_io::MAX_PROGRAM;
use pim_isa::{Program, ProgramDraft};
use pim_text::{line_laws, read_draft, text_laws};
use std::alloc::Global;

/// The program that a text is of, or the first fault: the first line that may not stand where it stands, else that the
/// line `end` is missing, else that there are too many cells, else what makes the program invalid. Linear in the bytes.
pub fn parse_text(alloc: Global, bytes: &[u8]) -> Result<Program, FileFault>
    requires { length bytes.now ≤ MAX_PROGRAM }
    ensures exact { Gives FileFault.NoMemory (λ program. program) result (parse1_of bytes.now) }

    // A line is judged by the last line before it, and by how many lines have followed the number of cycles.
    ensures line { wrong_line (parse1_of bytes.now) ≡ first_wrong [] (lines bytes.now) }
    ensures truncated { is_truncated (parse1_of bytes.now) ≡ is_cut_off [] (lines bytes.now) }

    // The draft is the one whose text the bytes are.
    ensures draft { (d : ProgramView) → (draft_of bytes.now ≡ Ok d) ↔ (HasText d × (bytes.now ≡ text_of d)) }

    // No other bytes are read as this program.
    ensures spelled { IfOk result (λ program. bytes.now ≡ text_of program) }
{
    line_laws();
    text_laws::<ProgramDraft>();
    validated(alloc, bytes)
}

/// The program of a file in either form, or its first fault. The five bytes `pim2` and a newline choose the binary form, which
/// is read item by item; all other bytes are read as `parse_text` does. Linear in the bytes.
pub fn parse(alloc: Global, bytes: &[u8]) -> Result<Program, FileFault>
    requires { length bytes.now ≤ MAX_PROGRAM }
    ensures exact { Gives FileFault.NoMemory (λ program. program) result (parse_of bytes.now) }

    // Each spelling of a program is read as it, and no other bytes are.
    ensures read { (p : ProgramView) → IsProgram p → ((bytes.now ≡ text_of p) ⊎ (bytes.now ≡ bin p)) → parse_of bytes.now ≡ Ok p }
    ensures spelled { (p : ProgramView) → parse_of bytes.now ≡ Ok p → (bytes.now ≡ text_of p) ⊎ (bytes.now ≡ bin p) }

    // The draft of a binary file is the one whose form the bytes are.
    ensures draft { IsTrue (is_binary bytes.now) → (d : ProgramView) → (draft2_of bytes.now ≡ Ok d) ↔ (HasBinary d × (bytes.now ≡ bin d)) }
{
    line_laws();
    text_laws::<ProgramDraft>();
    either(alloc, bytes)
}

/// The program of a file in the form that its first bytes tell.
fn either(alloc: Global, bytes: &[u8]) -> Result<Program, FileFault>
    requires { length bytes.now ≤ MAX_PROGRAM }
    ensures { Gives FileFault.NoMemory (λ program. program) result (parse_of bytes.now) }
{
    if has_tag(bytes) {
        parse_binary(alloc, bytes)
    } else {
        parse_text(alloc, bytes)
    }
}

/// The program of the draft of a program file.
#[tactic(auto, unfolding(crate::specs::ProgramFile::parse1_of))]
fn validated(alloc: Global, bytes: &[u8]) -> Result<Program, FileFault>
    requires { length bytes.now ≤ MAX_PROGRAM }
    ensures { Gives FileFault.NoMemory (λ program. program) result (parse1_of bytes.now) }
{
    let draft = draft(alloc, bytes)?;
    Ok(Program::new(draft)?)
}

/// The draft of a program file, not checked yet.
#[tactic(auto, using(crate::proofs::Laws::gives_ok, crate::proofs::Laws::gives_err))]
fn draft(alloc: Global, bytes: &[u8]) -> Result<ProgramDraft, FileFault>
    requires { length bytes.now ≤ MAX_PROGRAM }
    ensures exact { Gives FileFault.NoMemory (λ draft. draft) result (sized_draft_of bytes.now) }
    ensures few { IfOk result (λ draft. HasFewParts (program_parts draft)) }
{
    Ok(read_draft::<ProgramDraft>(alloc, bytes)?)
}
