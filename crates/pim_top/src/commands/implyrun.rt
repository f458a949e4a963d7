//! `implyrun`: a program of `false` and `imp` is executed on vectors.
ghost use Rattle.std.specs.Prelude.{◌≡◌, ◌⊎◌, ◌≤◌, Ok, Err, IfErr, IfOk, length};
ghost use Rattle.pim_words.specs.declared.command.Command.TheVariants as commands;
ghost use Rattle.pim_words.specs.declared.command.FillWord.{FillWord};
ghost use Rattle.pim_top.specs.Rows.{IsLoaded, IsUnloaded, RowsEnd};
ghost use Rattle.pim_top.specs.Statuses.{IsNoMemory};
ghost use Rattle.pim_top.specs.Streams.{seen, stream};
ghost use Rattle.pim_top.specs.commands.Implyrun.{implication_of, implyrun_of};
ghost use Rattle.pim_top.specs.inner.Faultless.{IsComplete};

use crate::commands::run::fill_of;
use crate::judgement::Judgement;
use crate::reading::bytes_of;
use crate::refusal::{Origin, Refusal};
use crate::walk::walk;
use pim_batch::ImplyBatch;
use pim_imply::{ImplyProgram, parse_imply};
use pim_io::{MAX_PROGRAM, Sink, Source};
use pim_vectors::Lines;
use pim_words::FillWord;
use std::alloc::Global;

/// Reads a program to its end, and executes it on every line of the input, with `fill` in the cells that are no inputs. The
/// results of a tile of rows are written when its last line was judged, and the rest at the end of the input. All memory is
/// taken before the first byte of the input is.
pub fn implyrun<P: Source, S: Source, K: Sink>(
    alloc: Global,
    fill: FillWord,
    program: &mut P,
    input: &mut S,
    output: &mut K,
) -> Result<(), Refusal>
    ensures ends { RowsEnd (implyrun_of fill) (seen (stream P.left P.faults program.old program.new)
        (stream S.left S.faults input.old input.new) (stream K.taken K.faults output.old output.new)) result }
    ensures complete { IsComplete (commands.Implyrun fill) (seen (stream P.left P.faults program.old program.new)
        (stream S.left S.faults input.old input.new) (stream K.taken K.faults output.old output.new)) result }
{
    execute_rows(alloc, fill, program, input, output)
}

/// The same, by what the sources give.
fn execute_rows<P: Source, S: Source, K: Sink>(
    alloc: Global,
    fill: FillWord,
    program: &mut P,
    input: &mut S,
    output: &mut K,
) -> Result<(), Refusal>
    ensures { RowsEnd (implyrun_of fill) (seen (stream P.left P.faults program.old program.new)
        (stream S.left S.faults input.old input.new) (stream K.taken K.faults output.old output.new)) result }
{
    let program = load(alloc, program)?;
    let mut batch = ImplyBatch::new(alloc, &program, fill_of(fill))?;
    let width = program.inputs().len() as u32;
    let mut lines = Lines::new(alloc, width)?;
    walk(&mut batch, width, &mut lines, input, output)
}

/// The program of a source that is read to its end.
fn load<P: Source>(alloc: Global, source: &mut P) -> Result<ImplyProgram, Refusal>
    ensures loaded { IfOk result (λ program. IsLoaded implication_of (stream P.left P.faults source.old source.new) (Ok program)) }
    ensures refused { IfErr result (IsUnloaded implication_of (stream P.left P.faults source.old source.new)) }
{
    let bytes = bytes_of(alloc, source, Origin::Program, Some(MAX_PROGRAM))?;
    Ok(implication_of(alloc, bytes.as_slice())?)
}

/// The program of the bytes of a file, or why they are refused.
fn implication_of(alloc: Global, file: &[u8]) -> Result<ImplyProgram, Judgement>
    requires { length file.now ≤ MAX_PROGRAM }
    ensures program { IfOk result (λ program. implication_of file.now ≡ Ok program) }
    ensures refused { IfErr result (λ j. IsNoMemory j ⊎ (implication_of file.now ≡ Err j)) }
{
    match parse_imply(alloc, file) {
        Ok(program) => Ok(program),
        Err(fault) => Err(Judgement::ImplyFile(fault)),
    }
}
