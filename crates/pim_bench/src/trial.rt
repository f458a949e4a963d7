//! A program of an adder is tried on rows.
ghost use Rattle.std.specs.Prelude.{◌≡◌, ◌+◌, ◌*◌, ◌<◌, ◌≤◌, length, count_by, if◌then◌else◌, IfOk};
ghost use Rattle.std.specs.Str.{bytes_eq};
ghost use Rattle.pim_adder.specs.declared.netlist.TheConstants.{MAX_BITS};
ghost use Rattle.pim_isa.specs.Programs.{ProgramView};
ghost use Rattle.pim_vectors.specs.Tiles.{SameSizes};
ghost use Rattle.pim_bench.specs.Trials.{first_row, is_wrong, rows_from, wrong_of};
ghost use Rattle.pim_bench.specs.inner.Executed.{Answers, Holds, later};

use pim_adder::Rows;
use pim_batch::{gather_results, load_vectors};
use pim_io::NoMemory;
use pim_isa::{Fill, Program};
use pim_lanes::{Bank, LARGE_WORDS};
use pim_text::is_text;
use pim_vectors::Tile;
use std::alloc::Global;
use std::marker::Model;

/// How many rows a program is tried on.
pub(crate) const ROWS: u32 = 262_144;

/// How many rows are executed together: those of a large tile.
const LANES: u32 = 4_096;

/// How many of the rows a program of an adder of numbers of so many bits answers wrongly: each row is executed, and its answer is
/// compared with the sum.
pub(crate) fn count_wrong(alloc: Global, program: &Program, bits: u32) -> Result<u32, NoMemory>
    requires some { 0 < bits }
    requires few { bits ≤ MAX_BITS }
    requires inputs { length program.now.inputs ≡ 2 * bits + 1 }
    requires outputs { length program.now.outputs ≡ bits + 1 }
    ensures { IfOk result (λ wrong. wrong ≡ wrong_of program.now bits) }
{
    let mut trial = Trial::new(alloc, program, bits)?;
    let mut wrong = 0;
    for _tile in 0..ROWS / LANES {
        wrong += trial.wrong_of_next();
    }
    Ok(wrong)
}

/// A program on its way through the rows, with all that executing some of them takes: a bank, tiles of rows and of results, and
/// room for the characters of one row.
#[derive(Debug, Drop)]
pub(crate) struct Trial<'a> {
    program: &'a Program,

    // The rows that are packed next, and those whose sums are compared next.
    drawn: Rows,
    checked: Rows,

    bank: Bank,
    vectors: Tile,
    results: Tile,
    line: Vec<u8>,
    sum: Vec<u8>,
    answer: Vec<u8>,
}

impl<'a> Model for Trial<'a> {
    ghost use Rattle.pim_bench.specs.inner.Executed.{IsTrial, TrialView};

    ghost Value = { TrialView };

    ghost view = { λ t. record { program = t.program.now; row = t.drawn } };

    ghost invariant = { λ t. IsTrial t.program.now t.drawn t.checked t.bank t.vectors t.results t.line.items t.sum.items t.answer.items };
}

impl<'a> Trial<'a> {
    /// A trial of a program that begins with the first row.
    pub(crate) fn new(alloc: Global, program: &'a Program, bits: u32) -> Result<Trial<'a>, NoMemory>
        requires some { 0 < bits }
        requires few { bits ≤ MAX_BITS }
        requires inputs { length program.now.inputs ≡ 2 * bits + 1 }
        requires outputs { length program.now.outputs ≡ bits + 1 }
        ensures { IfOk result (λ trial. trial ≡ record { program = program.now; row = first_row bits }) }
    {
        let inputs = 2 * bits + 1;
        let outputs = bits + 1;
        Ok(Trial {
            program,
            drawn: Rows::new(bits),
            checked: Rows::new(bits),
            bank: Bank::new(alloc, program.cells(), LARGE_WORDS)?,
            vectors: Tile::new(alloc, inputs, LARGE_WORDS)?,
            results: Tile::new(alloc, outputs, LARGE_WORDS)?,
            line: vec![in alloc; 0; inputs as usize]?,
            sum: vec![in alloc; 0; outputs as usize]?,
            answer: vec![in alloc; 0; outputs as usize]?,
        })
    }

    /// Executes the next rows together, and tells how many of them are answered wrongly.
    pub(crate) fn wrong_of_next(&mut self) -> u32
        ensures wrong { result ≡ count_by (is_wrong self.old.program) (rows_from LANES self.old.row) }
        ensures few { result ≤ LANES }
        ensures after { self.new ≡ record self.old { row = later LANES self.old.row } }
    {
        pack_rows(
            &mut self.vectors,
            &mut self.drawn,
            &mut self.line,
            &mut self.sum,
        );
        load_vectors(&mut self.bank, self.program, Fill::Zeros, &self.vectors);
        self.bank.run(self.program);
        gather_results(&mut self.results, self.program, &self.bank);
        compare_rows(
            &self.results,
            &mut self.checked,
            &mut self.line,
            &mut self.sum,
            &mut self.answer,
        )
    }
}

/// Packs the next rows into the lanes of a tile.
fn pack_rows(tile: &mut Tile, rows: &mut Rows, line: &mut [u8], sum: &mut [u8])
    requires words { tile.old.words ≡ LARGE_WORDS }
    requires columns { tile.old.columns ≡ 2 * rows.old.bits + 1 }
    requires line { length line.old ≡ 2 * rows.old.bits + 1 }
    requires sum { length sum.old ≡ rows.old.bits + 1 }
    ensures packed { Holds rows.old tile.new LANES }
    ensures after { rows.new ≡ later LANES rows.old }
    ensures sizes { SameSizes tile.old tile.new }
    ensures line { length line.new ≡ length line.old }
    ensures sum { length sum.new ≡ length sum.old }
{
    for lane in 0..LANES {
        rows.next(line, sum);
        tile.pack(lane, line);
    }
}

/// How many of the answers in a tile are not the sums of the next rows.
fn compare_rows(
    results: &Tile,
    rows: &mut Rows,
    line: &mut [u8],
    sum: &mut [u8],
    answer: &mut [u8],
) -> u32
    requires words { results.now.words ≡ LARGE_WORDS }
    requires columns { results.now.columns ≡ rows.old.bits + 1 }
    requires line { length line.old ≡ 2 * rows.old.bits + 1 }
    requires sum { length sum.old ≡ rows.old.bits + 1 }
    requires answer { length answer.old ≡ rows.old.bits + 1 }

    // Of the program that gave the answers.
    ensures wrong { (p : ProgramView) → Answers p rows.old results.now LANES
        → result ≡ count_by (is_wrong p) (rows_from LANES rows.old) }
    ensures few { result ≤ LANES }
    ensures after { rows.new ≡ later LANES rows.old }
    ensures line { length line.new ≡ length line.old }
    ensures sum { length sum.new ≡ length sum.old }
    ensures answer { length answer.new ≡ length answer.old }
{
    let mut wrong = 0;
    for lane in 0..LANES {
        rows.next(line, sum);
        results.unpack(lane, answer);
        wrong += difference(answer, sum);
    }
    wrong
}

/// One where the answer is not the sum, and else zero.
fn difference(answer: &[u8], sum: &[u8]) -> u32
    ensures value { result ≡ (if bytes_eq answer.now sum.now then 0 else 1) }
    ensures most { result ≤ 1 }
{
    if is_text(answer, sum) { 0 } else { 1 }
}
