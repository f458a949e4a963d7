//! Programs that a command reads.
ghost use Rattle.std.specs.Prelude.{◌≡◌, ◌⊎◌, ◌≤◌, Ok, Err, IfErr, IfOk, length};
ghost use Rattle.pim_top.specs.Statuses.{IsNoMemory};
ghost use Rattle.pim_top.specs.Programs.{program_of};
ghost use Rattle.pim_top.specs.Rows.{IsLoaded, IsUnloaded};
ghost use Rattle.pim_top.specs.Streams.{stream};

use crate::judgement::Judgement;
use crate::reading::bytes_of;
use crate::refusal::{Origin, Refusal};
use pim_file::parse;
use pim_io::{MAX_PROGRAM, Source};
use pim_isa::Program;
use std::alloc::Global;

/// The program of the bytes of a program file, in either form, or why they are refused.
pub(crate) fn program_of(alloc: Global, file: &[u8]) -> Result<Program, Judgement>
    requires { length file.now ≤ MAX_PROGRAM }
    ensures program { IfOk result (λ program. program_of file.now ≡ Ok program) }
    ensures refused { IfErr result (λ j. IsNoMemory j ⊎ (program_of file.now ≡ Err j)) }
{
    match parse(alloc, file) {
        Ok(program) => Ok(program),
        Err(fault) => Err(Judgement::File(fault)),
    }
}

/// The program of a source that is read to its end.
pub(crate) fn load_program<P: Source>(alloc: Global, source: &mut P) -> Result<Program, Refusal>
    ensures loaded { IfOk result (λ program. IsLoaded program_of (stream P.left P.faults source.old source.new) (Ok program)) }
    ensures refused { IfErr result (IsUnloaded program_of (stream P.left P.faults source.old source.new)) }
{
    let bytes = bytes_of(alloc, source, Origin::Program, Some(MAX_PROGRAM))?;
    Ok(program_of(alloc, bytes.as_slice())?)
}
