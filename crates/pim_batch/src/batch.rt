ghost use Rattle.std.specs.Prelude.{◌≡◌, ◌+◌, ◌*◌, ◌<◌, ◌≤◌, ◌++◌, ◌∷◌, ◌↔◌, [], length, IsTrue, OnOk, OnErr, IfOk};
ghost use Rattle.pim_io.specs.Bits.{bits_of};
ghost use Rattle.pim_io.specs.Outside.{Wrote};
ghost use Rattle.pim_vectors.specs.Tiles.{IsVector};
ghost use Rattle.pim_batch.specs.Tables.{table, tile_rows, tile_words};

use crate::limits::SMALL_WORDS;
use crate::packed::Packed;
use crate::{Executor, lines, rows};
use pim_io::{NoMemory, Sink, SinkFault};
use pim_isa::{Fill, Program};
use pim_lanes::{Bank, LARGE_WORDS, MAX_LARGE};
use pim_vectors::{Stage, Tile};
use std::alloc::Global;
use std::marker::Model;

/// How many bytes are written at once, unless a single line is longer.
pub(crate) const CHUNK: usize = 65_536;

/// The vectors that were packed and not executed yet, with all that executing them takes: a bank, the packed vectors, a
/// tile of results with a stage for 64 of them, and room for some of their lines.
#[derive(Debug, Drop)]
pub struct Batch<'a> {
    program: &'a Program,
    fill: Fill,
    bank: Bank,
    vectors: Packed,
    results: Tile,
    stage: Stage,
    chunk: Vec<u8>,

    // How many rows are executed together.
    most: u32,
}

impl<'a> Model for Batch<'a> {
    ghost use Rattle.pim_batch.specs.Batches.{BatchView};
    ghost use Rattle.pim_batch.specs.inner.Kept.{IsBatch};

    ghost Value = { BatchView };

    ghost view = { λ b. record {
      program = b.program.now;
      fill = b.fill;
      vectors = b.vectors.rows;
    } };

    ghost invariant = { λ b. IsBatch b.program.now b.bank b.vectors b.results b.stage b.chunk.items b.most };
}

impl<'a> Batch<'a> {
    /// A batch of no vectors. Takes all the memory that executing vectors takes: a column of words for each cell, input and output,
    /// of 64 words, or of 4 where the program has more than 65,536 cells or outputs, and 64 KiB for lines, or one line where that is
    /// longer.
    pub fn new(alloc: Global, program: &'a Program, fill: Fill) -> Result<Batch<'a>, NoMemory>
        ensures { IfOk result (λ batch. batch ≡ record { program = program.now; fill = fill; vectors = [] }) }
    {
        let words = tile_words(program);
        let inputs = program.inputs().len() as u32;
        let outputs = program.outputs().len() as u32;
        Ok(Batch {
            program,
            fill,
            bank: Bank::new(alloc, program.cells(), words)?,
            vectors: Packed::new(alloc, inputs, words)?,
            results: Tile::new(alloc, outputs, words)?,
            stage: Stage::new(alloc, outputs)?,
            chunk: vec![in alloc; 0; CHUNK.max(outputs as usize + 1)]?,
            most: 64 * words as u32,
        })
    }
}

impl<'a> Executor for Batch<'a> {
    ghost use Rattle.pim_batch.specs.Tables.{runner_of};

    ghost runner = { λ b. runner_of b.program b.fill };

    ghost rows = { λ b. b.vectors };

    fn is_full(&self) -> bool {
        self.vectors.count() == self.most
    }

    /// Linear in the line.
    fn push(&mut self, line: &[u8]) {
        self.vectors.push(line);
    }

    /// After a fault a second call would write those lines again that the sink took: drop the batch. Where none is packed nothing is
    /// executed. Else the program runs once, in all rows of the tile: a kernel or two for each instruction and one for each cell that
    /// an Init names. Beside that the cost is linear in the cells and outputs and in the characters that are written: as many whole
    /// lines at once as 64 KiB hold, or one. Takes no memory.
    fn flush<K: Sink>(&mut self, output: &mut K) -> Result<(), SinkFault> {
        let count = self.vectors.count();
        if count == 0 {
            return Ok(());
        }
        self.vectors.settle();
        let vectors = self.vectors.tile();
        rows::load_vectors(&mut self.bank, self.program, self.fill, vectors);
        self.bank.run(self.program);
        rows::gather_results(&mut self.results, self.program, &self.bank);
        let width = self.program.outputs().len() + 1;
        let stage = &mut self.stage;
        lines::write_results(&self.results, stage, count, width, &mut self.chunk, output)?;
        self.vectors.clear();
        Ok(())
    }
}

/// How many words a column has: as many as 4,096 rows take, and as 256 rows take where a program has many cells or outputs.
pub(crate) fn tile_words(program: &Program) -> usize
    ensures value { result ≡ tile_words program.now }
    ensures within { result ≤ 64 }
{
    if program.cells() <= MAX_LARGE && program.outputs().len() <= MAX_LARGE as usize {
        LARGE_WORDS
    } else {
        SMALL_WORDS
    }
}
