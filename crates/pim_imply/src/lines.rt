ghost use Rattle.std.specs.Prelude.{◌≡◌};
ghost use Rattle.pim_imply.specs.Lines.{false_of, imp_of, instr_of};

use crate::instr::ImplyInstr;
use pim_text::{counted, plain_number, port};

/// The instruction of a line that is the word `false` and a cell.
fn false_of(line: &[u8]) -> Option<ImplyInstr>
    ensures { result ≡ false_of line.now }
{
    let q = counted(b"false ", line)?;
    Some(ImplyInstr::False(q))
}

/// The instruction of a line that is the word `imp` and two cells.
fn imp_of(line: &[u8]) -> Option<ImplyInstr>
    ensures { result ≡ imp_of line.now }
{
    let words = port(b"imp ", line)?;
    let q = plain_number(words.label)?;
    Some(ImplyInstr::Imp { p: words.cell, q })
}

/// The instruction of a line. Linear in its length.
pub(crate) fn instr_of(line: &[u8]) -> Option<ImplyInstr>
    ensures { result ≡ instr_of line.now }
{
    match false_of(line) {
        Some(instr) => Some(instr),
        None => imp_of(line),
    }
}
