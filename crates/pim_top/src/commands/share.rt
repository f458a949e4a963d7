//! `share`: several programs become one, which executes them in one row in turns.
ghost use Rattle.std.specs.Prelude.{◌≡◌, ◌⊎◌, ◌≤◌, ◌<◌, ◌^◌, ◌++◌, ◌∷◌, [], ℕ, List, Ok, Err, IfErr, IfOk, OnOk, length};
ghost use Rattle.pim_io.specs.Lines.{line_view};
ghost use Rattle.pim_isa.specs.declared.draft.TheConstants.{MAX_CELLS};
ghost use Rattle.pim_words.specs.declared.command.Command.TheVariants as commands;
ghost use Rattle.pim_top.specs.Statuses.{IsNoMemory};
ghost use Rattle.pim_top.specs.commands.Share.{ShareAnswers, parts_of, turn_of, turns_of};

use crate::judgement::Judgement;
use crate::refusal::Origin;
use crate::whole::WholeText;
use pim_file::print;
use pim_io::{Line, MAX_INPUT, MAX_PROGRAM, NoMemory, Scan, number};
use pim_isa::Program;
use pim_share::{merge, parse_many};
use std::alloc::Global;
use std::marker::Model;

/// The words of `share`.
#[derive(Clone, Copy, Debug)]
pub struct Share {
    /// How many cells the row has.
    pub cells: u32,
    ghost fits: { cells ≤ MAX_CELLS },
}

/// The programs of a file, which are no more than can be merged.
#[derive(Debug, Drop)]
pub struct Parts {
    programs: Vec<Program>,
}

impl Model for Parts {
    ghost use Rattle.std.specs.Prelude.{List};
    ghost use Rattle.pim_isa.specs.Programs.{ProgramView};
    ghost use Rattle.pim_share.specs.Pieces.{AreFew};

    ghost Value = { List ProgramView };

    ghost view = { λ p. p.programs.items };

    ghost invariant = { λ p. AreFew p.programs.items };
}

impl WholeText for Share {
    type Opened = Parts;

    ghost command = { λ c. commands.Share c.cells };

    ghost opens = { λ c file opened. parts_of file ≡ Ok opened };

    fn reads(&self, origin: Origin) -> Option<u32> {
        match origin {
            Origin::Program => Some(MAX_PROGRAM),
            Origin::Input => Some(MAX_INPUT),
        }
    }

    fn open(&self, alloc: Global, file: &[u8]) -> Result<Parts, Judgement> {
        match parse_many(alloc, file) {
            Ok(programs) => Ok(Parts { programs }),
            Err(fault) => Err(Judgement::Parts(fault)),
        }
    }

    fn text(&self, alloc: Global, opened: Parts, input: &[u8]) -> Result<Vec<u8>, Judgement> {
        text_of(alloc, *self, &opened, input)
    }

    fn tell_fine(&self) {}
}

/// The text of the program that the parts become by the turns of the input.
fn text_of(alloc: Global, words: Share, parts: &Parts, input: &[u8]) -> Result<Vec<u8>, Judgement>
    requires { length input.now ≤ MAX_INPUT }
    ensures text { IfOk result (λ text. (file : List ℕ) → parts_of file ≡ Ok parts.now
        → ShareAnswers words.cells file input.now (Ok text.items)) }
    ensures refused { IfErr result (λ j. (file : List ℕ) → parts_of file ≡ Ok parts.now
        → IsNoMemory j ⊎ ShareAnswers words.cells file input.now (Err j)) }
{
    let turns = turns_of(alloc, input)?;
    let parts = parts.programs.as_slice();
    match merge(alloc, parts, turns.as_slice(), words.cells) {
        Ok(program) => Ok(print(alloc, &program)?),
        Err(fault) => Err(Judgement::Share(fault)),
    }
}

/// The turns of an input, or the first line that is none. Linear in the bytes.
fn turns_of(alloc: Global, input: &[u8]) -> Result<Vec<u32>, Judgement>
    requires { length input.now ≤ MAX_INPUT }
    ensures turns { IfOk result (λ turns. turns_of input.now ≡ Ok turns.items) }
    ensures refused { IfErr result (λ j. IsNoMemory j ⊎ (turns_of input.now ≡ Err j)) }
    ensures few { IfOk result (λ turns. length turns.items < 2 ^ 28) }
{
    let mut turns = Vec::new(alloc);
    let mut scan = Scan::new(input);
    while let Some(line) = scan.line() {
        push_turn(&mut turns, turn_of(line)?)?;
    }
    Ok(turns)
}

/// Appends a turn.
fn push_turn(turns: &mut Vec<u32>, turn: u32) -> Result<(), NoMemory>
    ensures { OnOk result (turns.new.items ≡ turns.old.items ++ turn ∷ []) }
{
    turns.push(turn)?;
    Ok(())
}

/// The turn that a line spells.
fn turn_of(line: Line) -> Result<u32, Judgement>
    ensures turn { IfOk result (λ turn. turn_of (line_view line.entry) ≡ Ok turn) }
    ensures refused { IfErr result (λ j. turn_of (line_view line.entry) ≡ Err j) }
{
    match number(pim_io::text_of(&line)) {
        Some(turn) => Ok(turn),
        None => Err(Judgement::Turn(line.number)),
    }
}
