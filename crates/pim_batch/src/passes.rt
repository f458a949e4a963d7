ghost use Rattle.std.specs.Prelude.{◌≡◌, ◌+◌, ◌*◌, ◌≤◌, length, min};
ghost use Rattle.pim_io.specs.Outside.{Wrote};
ghost use Rattle.pim_batch.specs.inner.Kept.{AreOfPasses, IsRoom};
ghost use Rattle.pim_batch.specs.inner.ImplyLines.{imply_lines};

use crate::lines::write_results;
use crate::majorities::run_imply;
use crate::rows::{gather_results, load_lanes};
use pim_imply::ImplyProgram;
use pim_io::{Sink, SinkFault, tell_writes};
use pim_isa::Fill;
use pim_lanes::Bank;
use pim_vectors::{Stage, Tile};

/// What a pass is executed in: a bank and a tile of results, each of so many words, a stage for results, and room for
/// some of their lines.
#[derive(Debug, Drop)]
pub struct Room {
    pub(crate) words: usize,
    pub(crate) bank: Bank,
    pub(crate) results: Tile,
    pub(crate) stage: Stage,
    pub(crate) chunk: Vec<u8>,
}

/// Executes the first rows of a tile, as many in a pass as there is room for, and writes a line of results for each.
pub(crate) fn execute<K: Sink>(
    program: &ImplyProgram,
    fill: Fill,
    vectors: &Tile,
    rows: u32,
    room: &mut Room,
    output: &mut K,
) -> Result<(), SinkFault>
    requires room { IsRoom program.now room.old }
    requires columns { vectors.now.columns ≡ length program.now.inputs }
    requires passes { AreOfPasses vectors.now.words room.old.words }
    requires few { vectors.now.words ≤ 64 }
    requires rows { rows ≤ 64 * vectors.now.words }
    ensures wrote { Wrote result (K.taken output.old) (K.taken output.new) (K.faults output.old) (K.faults output.new)
        (imply_lines program.now fill vectors.now 0 rows) }
    ensures never_falls { K.faults output.old ≤ K.faults output.new }
    ensures room { IsRoom program.now room.new }
    ensures words { room.new.words ≡ room.old.words }
{
    tell_writes();
    let words = room.words;
    let mut first = 0;
    while 64 * first < rows as usize {
        let left = rows - 64 * first as u32;
        pass(program, fill, vectors, first, left, room, output)?;
        first += words;
    }
    Ok(())
}

/// Executes the rows of a tile that begin with the first lane of a word, of so many that are left as there is room for.
fn pass<K: Sink>(
    program: &ImplyProgram,
    fill: Fill,
    vectors: &Tile,
    first: usize,
    left: u32,
    room: &mut Room,
    output: &mut K,
) -> Result<(), SinkFault>
    requires room { IsRoom program.now room.old }
    requires columns { vectors.now.columns ≡ length program.now.inputs }
    requires there { first + room.old.words ≤ vectors.now.words }
    requires few { vectors.now.words ≤ 64 }
    ensures wrote { Wrote result (K.taken output.old) (K.taken output.new) (K.faults output.old) (K.faults output.new)
        (imply_lines program.now fill vectors.now (64 * first) (min left (64 * room.old.words))) }
    ensures never_falls { K.faults output.old ≤ K.faults output.new }
    ensures room { IsRoom program.now room.new }
    ensures words { room.new.words ≡ room.old.words }
{
    load_lanes(&mut room.bank, program.body(), fill, vectors, first);
    run_imply(&mut room.bank, program);
    gather_results(&mut room.results, program.body(), &room.bank);
    let lanes = left.min(64 * room.words as u32);
    let width = program.outputs().len() + 1;
    let stage = &mut room.stage;
    write_results(&room.results, stage, lanes, width, &mut room.chunk, output)
}
