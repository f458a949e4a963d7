//! The walk over the lines of an input: each is executed as a row, and a tile of results is written at a time.
ghost use Rattle.std.specs.Prelude.{◌≡◌, ◌≢◌, ℕ, ◌<◌, ◌≤◌, List, Option, [], IfErr, IfOk, OnOk, OnErr, length, true};
ghost use Rattle.pim_io.specs.Outside.{Rose, Told};
ghost use Rattle.pim_top.specs.Streams.{IsCut, IsUntouched, IsWritten, stream};
ghost use Rattle.pim_top.specs.Walks.{WalkEnds};
ghost use Rattle.pim_top.specs.inner.Standing.{GoesOn, Goes, IsFurther, IsOfLines, IsOfWalk, IsRunning, IsWalk, Refuses, Stops, first_line, lines_refusal};
ghost use Rattle.pim_batch.specs.Runners.{results};

use crate::judgement::Judgement;
use crate::refusal::{Origin, Refusal};
use pim_batch::Executor;
use pim_io::{Sink, Source};
use pim_vectors::{Lines, LinesFault, vector_fits};

/// Executes every line of the input. The results of a tile of rows are written when its last line was judged, and the rest at the
/// end of the input. Takes no memory.
pub(crate) fn walk<E: Executor, S: Source, K: Sink>(
    executor: &mut E,
    width: u32,
    lines: &mut Lines,
    input: &mut S,
    output: &mut K,
) -> Result<(), Refusal>
    requires width { width ≡ (E.runner executor.old).width }
    requires start { lines.old ≡ first_line width }
    requires empty { E.rows executor.old ≡ [] }
    requires some { 0 < (E.runner executor.old).tile }
    ensures { WalkEnds (E.runner executor.old) (stream S.left S.faults input.old input.new) (stream K.taken K.faults output.old output.new) result }
{
    let mut more = true;
    while more {
        more = step(executor, width, lines, input, output)?;
    }
    Ok(())
}

/// Packs the next line, and writes the results of a tile that is full, or at the end of the input of those rows that are packed.
/// Says whether there may be more lines.
fn step<E: Executor, S: Source, K: Sink>(
    executor: &mut E,
    width: u32,
    lines: &mut Lines,
    input: &mut S,
    output: &mut K,
) -> Result<bool, Refusal>
    requires width { width ≡ (E.runner executor.old).width }
    requires longest { lines.old.longest ≡ width }
    requires room { length (E.rows executor.old) < (E.runner executor.old).tile }
    ensures goes { IfOk result (λ more. Told (S.left input.old) (S.left input.new) (λ left rest. (bytes : List ℕ) (before : Option (List ℕ)) →
        IsRunning (E.runner executor.old) bytes left before (K.taken output.old) lines.old (E.rows executor.old) →
        GoesOn more (E.runner executor.old) bytes rest before (K.taken output.new) lines.new (E.rows executor.new))) }
    ensures refused { IfErr result (λ r. Told (S.left input.old) (S.left input.new) (λ left rest. (bytes : List ℕ) (before : Option (List ℕ)) →
        IsRunning (E.runner executor.old) bytes left before (K.taken output.old) lines.old (E.rows executor.old) →
        Refuses (E.runner executor.old) bytes rest before (K.taken output.new) r)) }
    ensures room { OnOk result (length (E.rows executor.new) < (E.runner executor.old).tile) }
    ensures longest { lines.new.longest ≡ lines.old.longest }
    ensures further { IfOk result (λ more. more ≡ true → IsFurther lines.old lines.new) }
    ensures same { E.runner executor.new ≡ E.runner executor.old }
    ensures input_steady { OnOk result (S.faults input.new ≡ S.faults input.old) }
    ensures output_steady { OnOk result (K.faults output.new ≡ K.faults output.old) }
    ensures kinds { IfErr result (IsOfWalk (S.faults input.old) (S.faults input.new) (K.faults output.old) (K.faults output.new)) }
{
    if !take_up(executor, width, lines, input)? {
        executor.flush(output)?;
        return Ok(false);
    }
    if !executor.is_full() {
        return Ok(true);
    }
    executor.flush(output)?;
    Ok(true)
}

/// Packs the next line, and says whether there was one.
fn take_up<E: Executor, S: Source>(
    executor: &mut E,
    width: u32,
    lines: &mut Lines,
    input: &mut S,
) -> Result<bool, Refusal>
    requires width { width ≡ (E.runner executor.old).width }
    requires longest { lines.old.longest ≡ width }
    requires room { length (E.rows executor.old) < (E.runner executor.old).tile }
    ensures goes { IfOk result (λ more. Told (S.left input.old) (S.left input.new) (λ left rest. (bytes front : List ℕ) →
        IsWalk (E.runner executor.old).width bytes left lines.old front →
        Goes more (E.runner executor.old).width bytes rest front (E.rows executor.old) lines.new (E.rows executor.new))) }
    ensures stops { IfErr result (λ r. Told (S.left input.old) (S.left input.new) (λ left rest. (bytes front : List ℕ) →
        IsWalk (E.runner executor.old).width bytes left lines.old front →
        Stops (E.runner executor.old).width bytes rest front r)) }
    ensures room { length (E.rows executor.new) ≤ (E.runner executor.old).tile }
    ensures longest { lines.new.longest ≡ lines.old.longest }
    ensures further { IfOk result (λ more. more ≡ true → IsFurther lines.old lines.new) }
    ensures same { E.runner executor.new ≡ E.runner executor.old }
    ensures steady { OnOk result (S.faults input.new ≡ S.faults input.old) }
    ensures kinds { IfErr result (IsOfLines (S.faults input.old) (S.faults input.new)) }
{
    let number = lines.given() + 1;
    match lines.next(input) {
        Ok(None) => Ok(false),
        Ok(Some(line)) => {
            if !vector_fits(line, width) {
                return Err(Refusal::Judged(Judgement::Vector(number)));
            }
            executor.push(line);
            Ok(true)
        }
        Err(fault) => Err(of_lines(fault)),
    }
}

/// The refusal that lines come to.
pub(crate) fn of_lines(fault: LinesFault) -> Refusal
    ensures { result ≡ lines_refusal fault }
{
    match fault {
        LinesFault::Fault => Refusal::ReadFault(Origin::Input),
        LinesFault::Long(line) => Refusal::Judged(Judgement::Vector(line)),
        LinesFault::TooMany => Refusal::Judged(Judgement::TooManyLines),
        LinesFault::TooLong => Refusal::TooLong(Origin::Input),
    }
}
