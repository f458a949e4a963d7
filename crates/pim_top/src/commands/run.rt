//! `run`: a program is executed on vectors.
ghost use Rattle.std.specs.Prelude.{◌≡◌, Ok, IfErr, IfOk};
ghost use Rattle.pim_words.specs.declared.command.Command.TheVariants as commands;
ghost use Rattle.pim_words.specs.declared.command.FillWord.{FillWord};
ghost use Rattle.pim_top.specs.Rows.{RowsEnd};
ghost use Rattle.pim_top.specs.Streams.{seen, stream};
ghost use Rattle.pim_top.specs.commands.Run.{fill_of, run_of};
ghost use Rattle.pim_top.specs.inner.Faultless.{IsComplete};

use crate::program::load_program;
use crate::refusal::Refusal;
use crate::walk::walk;
use pim_batch::Batch;
use pim_io::{Sink, Source};
use pim_isa::Fill;
use pim_vectors::Lines;
use pim_words::FillWord;
use std::alloc::Global;

/// Reads a program to its end, and executes it on every line of the input, with `fill` in the cells that are no inputs. The
/// results of a tile of rows are written when its last line was judged, and the rest at the end of the input. All memory is
/// taken before the first byte of the input is.
pub fn run<P: Source, S: Source, K: Sink>(
    alloc: Global,
    fill: FillWord,
    program: &mut P,
    input: &mut S,
    output: &mut K,
) -> Result<(), Refusal>
    ensures ends { RowsEnd (run_of fill) (seen (stream P.left P.faults program.old program.new)
        (stream S.left S.faults input.old input.new) (stream K.taken K.faults output.old output.new)) result }
    ensures complete { IsComplete (commands.Run fill) (seen (stream P.left P.faults program.old program.new)
        (stream S.left S.faults input.old input.new) (stream K.taken K.faults output.old output.new)) result }
{
    execute_rows(alloc, fill, program, input, output)
}

/// The same, by what the sources give.
fn execute_rows<P: Source, S: Source, K: Sink>(
    alloc: Global,
    fill: FillWord,
    program: &mut P,
    input: &mut S,
    output: &mut K,
) -> Result<(), Refusal>
    ensures { RowsEnd (run_of fill) (seen (stream P.left P.faults program.old program.new)
        (stream S.left S.faults input.old input.new) (stream K.taken K.faults output.old output.new)) result }
{
    let program = load_program(alloc, program)?;
    let mut batch = Batch::new(alloc, &program, fill_of(fill))?;
    let width = program.inputs().len() as u32;
    let mut lines = Lines::new(alloc, width)?;
    walk(&mut batch, width, &mut lines, input, output)
}

/// The filling that a word of `--fill` names.
pub(crate) fn fill_of(word: FillWord) -> Fill
    ensures { result ≡ fill_of word }
{
    match word {
        FillWord::Zeros => Fill::Zeros,
        FillWord::Ones => Fill::Ones,
    }
}
