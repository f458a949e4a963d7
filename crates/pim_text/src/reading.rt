ghost use Rattle.std.specs.Prelude.{◌≤◌, length, IfOk};
ghost use Rattle.pim_io.specs.Readings.{Gives};
ghost use Rattle.pim_text.specs.Parts.{HasFewParts};
ghost use Rattle.pim_text.specs.Reading.{TextLaws, sized_parts_of};
ghost use Rattle.pim_text.specs.inner.Kept.{parts_within_limit};

use crate::draft::Draft;
use crate::fault::TextFault;
use crate::laws::line_laws;
use crate::reader::Reader;
use pim_io::{MAX_PROGRAM, Scan};
use std::alloc::Global;

/// The draft that a text is of, or the first fault: the first line that may not stand where it stands, else that the line
/// `end` is missing, else that there are too many cells. Linear in the bytes.
pub fn read_draft<D: Draft>(alloc: Global, bytes: &[u8]) -> Result<D, TextFault>
    requires { length bytes.now ≤ MAX_PROGRAM }
    ensures exact { Gives TextFault.NoMemory D.parts result (sized_parts_of D.kind bytes.now) }
    ensures few { IfOk result (λ draft. HasFewParts (D.parts draft)) }
{
    D::tell_kind();
    text_laws::<D>();
    kept(alloc, bytes)
}

/// The same, where a draft that is too large is dropped when it begins.
fn kept<D: Draft>(alloc: Global, bytes: &[u8]) -> Result<D, TextFault>
    requires { length bytes.now ≤ MAX_PROGRAM }
    ensures { Gives TextFault.NoMemory D.parts result (parts_within_limit D.kind bytes.now) }
{
    let mut reader = Reader::new(alloc);
    let mut scan = Scan::new(bytes);
    while let Some(line) = scan.line() {
        reader.line(line)?;
    }
    reader.finish()
}

/// The laws of the texts of a kind, for those who read and print them: it computes nothing.
pub fn text_laws<D: Draft>()
    ensures { TextLaws D.kind }
{
    line_laws();
    D::tell_kind();
}
