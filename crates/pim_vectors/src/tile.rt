ghost use Rattle.std.specs.Prelude.{◌≡◌, ℕ, ◌+◌, ◌*◌, ◌/◌, ◌%◌, ◌<◌, ◌≤◌, ◌==◌, if◌then◌else◌, false, List, length, replicate, slice_index_or, slice_set, IfOk};
ghost use Rattle.pim_io.specs.Bits.{bits_of, line_of};
ghost use Rattle.pim_io.specs.Lanes.{lane};
ghost use Rattle.pim_vectors.specs.Stages.{staged};
ghost use Rattle.pim_vectors.specs.Tiles.{column_of, with_column, vector_of, IsLane, IsVector, SameSizes};
ghost use Rattle.pim_vectors.specs.inner.Cells.{staged_at};
ghost use Rattle.pim_vectors.specs.inner.Kept.{IsTile};

use crate::blocks::{put_words, take_words};
use crate::lanes;
use crate::limits::MAX_WORDS;
use crate::stage::Stage;
use pim_io::NoMemory;
use std::alloc::Global;
use std::marker::Model;

/// Vectors of bits side by side: a column of words for each place of a vector, with a lane of each column for each vector.
#[derive(Debug, Drop)]
pub struct Tile {
    buffer: Vec<u64>,
    columns: u32,
    words: usize,
}

impl Model for Tile {
    ghost use Rattle.pim_vectors.specs.Tiles.{TileView};
    ghost use Rattle.pim_vectors.specs.inner.Kept.{IsTile};

    ghost Value = { TileView };

    ghost view = { λ t. record { columns = t.columns; words = t.words; buffer = t.buffer.items } };

    ghost invariant = { λ t. IsTile (record { columns = t.columns; words = t.words; buffer = t.buffer.items }) };
}

impl Tile {
    ghost use Rattle.std.specs.Borrow.{sem};
    ghost use Rattle.pim_vectors.specs.TileLending.{LendsColumn};

    /// A tile of that many columns, with 64 lanes for each word of a column, all zero. Takes memory for all columns at once.
    pub fn new(alloc: Global, columns: u32, words: usize) -> Result<Tile, NoMemory>
        requires { words ≤ MAX_WORDS }
        ensures columns { IfOk result (λ tile. tile.columns ≡ columns) }
        ensures words { IfOk result (λ tile. tile.words ≡ words) }
        ensures vectors { IfOk result (λ tile. (r : ℕ) → IsLane tile r → vector_of tile r ≡ replicate columns false) }
    {
        Ok(Tile {
            buffer: vec![in alloc; 0; columns as usize * words]?,
            columns,
            words,
        })
    }

    /// Writes the bits of a line of the characters `0` and `1` into a lane. Linear in the line; a stage does it for many places at
    /// once.
    pub fn pack(&mut self, index: u32, line: &[u8])
        requires lane { IsLane self.old index }
        requires fits { IsVector self.old.columns line.now }
        ensures vectors { (r : ℕ) → IsLane self.old r → vector_of self.new r ≡ (if r == index then bits_of line.now else vector_of self.old r) }
        ensures sizes { SameSizes self.old self.new }
    {
        lanes::pack_lane(&mut self.buffer, self.words, index as usize, line);
    }

    /// Writes the bits of a lane as the characters `0` and `1` into a line. Linear in the line; a stage does it for many places at
    /// once.
    pub fn unpack(&self, index: u32, line: &mut [u8])
        requires lane { IsLane self.now index }
        requires long { length line.old ≡ self.now.columns }
        ensures { line.new ≡ line_of (vector_of self.now index) }
    {
        lanes::unpack_lane(&self.buffer, self.words, index as usize, line);
    }

    /// Writes 64 lanes, those that stand in the same word of each column: the lanes of a stage. Linear in the columns.
    pub fn put_block(&mut self, at: usize, stage: &Stage)
        requires within { at < self.old.words }
        requires columns { stage.now.columns ≡ self.old.columns }
        ensures vectors { (r : ℕ) → IsLane self.old r
            → vector_of self.new r ≡ (if r / 64 == at then staged stage.now (r % 64) else vector_of self.old r) }
        ensures sizes { SameSizes self.old self.new }
    {
        let columns = self.columns as usize;
        put_words(&mut self.buffer, self.words, at, stage.bytes(), columns);
    }

    /// Reads 64 lanes, those that stand in the same word of each column, into the bytes of a stage. Linear in the columns.
    pub(crate) fn take_words(&self, at: usize, bytes: &mut [u8], columns: usize)
        requires within { at < self.now.words }
        requires columns { columns ≡ self.now.columns }
        requires whole { length bytes.old ≡ 8 * columns }
        ensures { (c r : ℕ) → c < columns → r < 64 → staged_at columns bytes.new c r
            ≡ slice_index_or (vector_of self.now (64 * at + r)) c false }
    {
        take_words(&self.buffer, self.words, at, bytes, columns);
    }

    /// The words of a column.
    pub fn column(&self, k: u32) -> &[u64]
        requires { k < self.now.columns }
        ensures value { result.now ≡ column_of self.now k }
        ensures long { length result.now ≡ self.now.words }
        ensures lanes { (r : ℕ) → IsLane self.now r → lane result.now r ≡ slice_index_or (vector_of self.now r) k false }
    {
        let start = k as usize * self.words;
        &self.buffer[start..start + self.words]
    }

    /// The words of a column, for writing.
    pub fn column_mut(&mut self, k: u32) -> &mut [u64]
        requires { k < self.old.columns }
        ensures* lends { sem 𝓛 (LendsColumn self.entry k result) }
        ensures value { result.now ≡ column_of self.old k }
        ensures long { length result.now ≡ self.old.words }

        // What the vectors are then.
        ensures vectors { (column : List ℕ) → length column ≡ self.old.words → (r : ℕ) → IsLane self.old r
            → vector_of (with_column self.old k column) r ≡ slice_set (vector_of self.old r) k (lane column r) }
    {
        let start = k as usize * self.words;
        let end = start + self.words;
        self.buffer.slice_mut(start..end)
    }

    /// Writes the words of a column.
    pub fn put_column(&mut self, k: u32, words: &[u64])
        requires column { k < self.old.columns }
        requires long { length words.now ≡ self.old.words }
        ensures vectors { (r : ℕ) → IsLane self.old r → vector_of self.new r ≡ slice_set (vector_of self.old r) k (lane words.now r) }
        ensures sizes { SameSizes self.old self.new }
    {
        lanes::put_column(&mut self.buffer, self.words, k as usize, words);
    }
}
