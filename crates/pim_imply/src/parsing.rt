ghost use Rattle.std.specs.Prelude.{◌≡◌, ◌↔◌, ◌≤◌, length, Ok, IfOk};
ghost use Rattle.pim_io.specs.Readings.{Gives};
ghost use Rattle.pim_imply.specs.Programs.{ImplyView};
ghost use Rattle.pim_imply.specs.Reading.{draft_of, imply_of, imply_parts};
ghost use Rattle.pim_imply.specs.Spelled.{HasText};
ghost use Rattle.pim_imply.specs.Text.{text as text_of};
ghost use Rattle.pim_text.specs.Parts.{HasFewParts};

use crate::draft::ImplyDraft;
use crate::fault::ImplyFault;
use crate::program::ImplyProgram;
use pim_io::MAX_PROGRAM;
use pim_text::{line_laws, read_draft, text_laws};
use std::alloc::Global;

/// The program that a text is of, or the first fault: the first line that may not stand where it stands, else that the
/// line `end` is missing, else that there are too many cells, else what makes the program invalid. Linear in the bytes.
pub fn parse_imply(alloc: Global, bytes: &[u8]) -> Result<ImplyProgram, ImplyFault>
    requires { length bytes.now ≤ MAX_PROGRAM }
    ensures exact { Gives ImplyFault.NoMemory (λ program. program) result (imply_of bytes.now) }

    // The draft is the one whose text the bytes are.
    ensures draft { (d : ImplyView) → (draft_of bytes.now ≡ Ok d) ↔ (HasText d × (bytes.now ≡ text_of d)) }

    // No other bytes are read as this program.
    ensures spelled { IfOk result (λ program. bytes.now ≡ text_of program) }
{
    line_laws();
    text_laws::<ImplyDraft>();
    validated(alloc, bytes)
}

/// The program of the draft of a text.
#[tactic(auto, unfolding(crate::specs::Reading::imply_of))]
fn validated(alloc: Global, bytes: &[u8]) -> Result<ImplyProgram, ImplyFault>
    requires { length bytes.now ≤ MAX_PROGRAM }
    ensures { Gives ImplyFault.NoMemory (λ program. program) result (imply_of bytes.now) }
{
    let draft = draft(alloc, bytes)?;
    Ok(ImplyProgram::new(draft)?)
}

/// The draft of a text, not checked yet.
#[tactic(auto, using(crate::proofs::TextLaws::gives_ok, crate::proofs::TextLaws::gives_err))]
fn draft(alloc: Global, bytes: &[u8]) -> Result<ImplyDraft, ImplyFault>
    requires { length bytes.now ≤ MAX_PROGRAM }
    ensures exact { Gives ImplyFault.NoMemory (λ draft. draft) result (draft_of bytes.now) }
    ensures few { IfOk result (λ draft. HasFewParts (imply_parts draft)) }
{
    Ok(read_draft::<ImplyDraft>(alloc, bytes)?)
}
