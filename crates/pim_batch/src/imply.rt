ghost use Rattle.std.specs.Prelude.{◌≡◌, ℕ, List, All, ◌+◌, ◌-◌, ◌*◌, ◌^◌, ◌<◌, ◌≤◌, ◌⊎◌, ◌++◌, ◌∷◌, ◌↔◌, [], length, IsTrue, OnOk, OnErr, IfOk};
ghost use Rattle.pim_io.specs.Bits.{bits_of};
ghost use Rattle.pim_io.specs.Outside.{Wrote};
ghost use Rattle.pim_vectors.specs.Lines.{lines};
ghost use Rattle.pim_vectors.specs.Tiles.{IsVector};
ghost use Rattle.pim_batch.specs.inner.Kept.{AreOfPasses, IsRoom};
ghost use Rattle.pim_batch.specs.ImplyTables.{imply_rows};

use crate::Executor;
use crate::batch::{CHUNK, tile_words};
use crate::limits::SMALL_WORDS;
use crate::packed::Packed;
use crate::passes::{Room, execute};
use pim_imply::ImplyProgram;
use pim_io::{MAX_INPUT, NoMemory, Sink, SinkFault};
use pim_isa::Fill;
use pim_lanes::{Bank, LARGE_WORDS};
use pim_vectors::{Stage, Tile};
use std::alloc::Global;
use std::marker::Model;

/// The vectors that were packed for a program of the IMPLY machine and not executed yet, with all that executing them takes.
#[derive(Debug, Drop)]
pub struct ImplyBatch<'a> {
    program: &'a ImplyProgram,
    fill: Fill,
    vectors: Packed,
    room: Room,

    // How many rows are packed before they are executed.
    most: u32,
}

impl<'a> Model for ImplyBatch<'a> {
    ghost use Rattle.pim_batch.specs.ImplyBatches.{ImplyBatchView};
    ghost use Rattle.pim_batch.specs.inner.Kept.{IsImplyBatch};

    ghost Value = { ImplyBatchView };

    ghost view = { λ b. record { program = b.program.now; fill = b.fill; vectors = b.vectors.rows } };

    ghost invariant = { λ b. IsImplyBatch b.program.now b.vectors b.room b.most };
}

impl<'a> ImplyBatch<'a> {
    /// A batch of no vectors. Takes all the memory that executing vectors takes: a column of words for each cell and output, of 64
    /// words, or of 4 where the program has more than 65,536 cells or outputs; a bit for each input and row; and 64 KiB for
    /// lines, or one line where that is longer.
    pub fn new(
        alloc: Global,
        program: &'a ImplyProgram,
        fill: Fill,
    ) -> Result<ImplyBatch<'a>, NoMemory>
        ensures { IfOk result (λ batch. batch ≡ record { program = program.now; fill = fill; vectors = [] }) }
    {
        let inputs = program.body().inputs().len() as u32;
        let room = room_for(alloc, program)?;
        let most = rows_of(inputs);
        let words = vector_words(most, room.words);
        Ok(ImplyBatch {
            program,
            fill,
            vectors: Packed::new(alloc, inputs, words)?,
            room,
            most,
        })
    }
}

impl<'a> Executor for ImplyBatch<'a> {
    ghost use Rattle.pim_batch.specs.ImplyTables.{imply_runner};

    ghost runner = { λ b. imply_runner b.program b.fill };

    ghost rows = { λ b. b.vectors };

    fn is_full(&self) -> bool {
        self.vectors.count() == self.most
    }

    /// Linear in the line.
    fn push(&mut self, line: &[u8]) {
        self.vectors.push(line);
    }

    /// After a fault a second call would write those lines again that the sink took: drop the batch. The program runs in all rows of
    /// a pass at once, with a kernel for each instruction. Takes no memory.
    fn flush<K: Sink>(&mut self, output: &mut K) -> Result<(), SinkFault> {
        let count = self.vectors.count();
        self.vectors.settle();
        let vectors = self.vectors.tile();
        execute(
            self.program,
            self.fill,
            vectors,
            count,
            &mut self.room,
            output,
        )?;
        self.vectors.clear();
        Ok(())
    }
}

/// The room for a pass of a program.
fn room_for(alloc: Global, program: &ImplyProgram) -> Result<Room, NoMemory>
    ensures room { IfOk result (IsRoom program.now) }
    ensures words { IfOk result (λ room. (room.words ≡ LARGE_WORDS) ⊎ (room.words ≡ SMALL_WORDS)) }
{
    let body = program.body();
    let words = tile_words(body);
    let outputs = body.outputs().len() as u32;
    Ok(Room {
        words,
        bank: Bank::new(alloc, body.cells(), words)?,
        results: Tile::new(alloc, outputs, words)?,
        stage: Stage::new(alloc, outputs)?,
        chunk: vec![in alloc; 0; CHUNK.max(outputs as usize + 1)]?,
    })
}

/// How many rows are packed before they are executed, for vectors of so many bits: 4,096, or where an input can't have that many
/// lines of this length, more than it can have.
fn rows_of(inputs: u32) -> u32
    requires { inputs < 2 ^ 32 - 1 }
    ensures value { result ≡ imply_rows inputs }
    ensures some { 0 < result }
    ensures few { result ≤ 64 * LARGE_WORDS }

    // Where they are fewer than 4,096, no text within the limit has as many lines of this length.
    ensures never_full { (text : List ℕ) → length text ≤ MAX_INPUT → All (λ l. length l ≡ inputs) (lines text)
        → (result ≡ 64 * LARGE_WORDS) ⊎ (length (lines text) < result) }
{
    (64 * LARGE_WORDS as u32).min(MAX_INPUT / (inputs + 1) + 2)
}

/// How many words a column of vectors has for so many rows: as many as the passes take that have so many words each.
fn vector_words(rows: u32, words: usize) -> usize
    requires words { (words ≡ LARGE_WORDS) ⊎ (words ≡ SMALL_WORDS) }
    requires rows { rows ≤ 64 * LARGE_WORDS }
    ensures enough { rows ≤ 64 * result }
    ensures few { result ≤ 64 }
    ensures passes { AreOfPasses result words }
{
    if words == LARGE_WORDS {
        return LARGE_WORDS;
    }
    (rows as usize + 64 * SMALL_WORDS - 1) / (64 * SMALL_WORDS) * SMALL_WORDS
}
