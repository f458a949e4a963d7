ghost use Rattle.std.specs.Prelude.{◌≡◌, ◌*◌, ◌<◌, ◌≤◌, ◌++◌, ◌∷◌, [], length, map, IfOk};
ghost use Rattle.std.specs.List.{range_with_len};
ghost use Rattle.pim_io.specs.Bits.{bits_of};
ghost use Rattle.pim_vectors.specs.Tiles.{IsVector, SameSizes, vector_of};

use pim_io::NoMemory;
use pim_vectors::{MAX_WORDS, Stage, Tile};
use std::alloc::Global;
use std::marker::Model;

/// Rows that are packed one after another. Those that share a word of each column are packed into a stage, and are moved into
/// the tile together.
#[derive(Debug, Drop)]
pub(crate) struct Packed {
    tile: Tile,
    stage: Stage,
    count: u32,
}

impl Model for Packed {
    ghost use Rattle.pim_batch.specs.inner.Packing.{IsPacked, PackedView, packed_rows};

    ghost Value = { PackedView };

    ghost view = { λ p. record { tile = p.tile; rows = packed_rows p.tile p.stage p.count } };

    ghost invariant = { λ p. IsPacked p.tile p.stage p.count };
}

impl Packed {
    /// No rows of that many bits, with room for 64 in each word. Takes memory for all of them.
    pub(crate) fn new(alloc: Global, columns: u32, words: usize) -> Result<Packed, NoMemory>
        requires { words ≤ MAX_WORDS }
        ensures columns { IfOk result (λ packed. packed.tile.columns ≡ columns) }
        ensures words { IfOk result (λ packed. packed.tile.words ≡ words) }
        ensures rows { IfOk result (λ packed. packed.rows ≡ []) }
    {
        Ok(Packed {
            tile: Tile::new(alloc, columns, words)?,
            stage: Stage::new(alloc, columns)?,
            count: 0,
        })
    }

    /// How many rows are packed.
    pub(crate) fn count(&self) -> u32
        ensures value { result ≡ length self.now.rows }
        ensures within { result ≤ 64 * self.now.tile.words }
    {
        self.count
    }

    /// Packs one more row, a line of the characters `0` and `1`. Linear in the line.
    pub(crate) fn push(&mut self, line: &[u8])
        requires fits { IsVector self.old.tile.columns line.now }
        requires room { length self.old.rows < 64 * self.old.tile.words }
        ensures pushed { self.new.rows ≡ self.old.rows ++ bits_of line.now ∷ [] }
        ensures sizes { SameSizes self.old.tile self.new.tile }
    {
        let index = self.count;
        self.stage.pack(index % 64, line);
        self.count += 1;
        if self.count % 64 != 0 {
            return;
        }
        self.tile.put_block((index / 64) as usize, &self.stage);
    }

    /// Moves the last rows into the tile too: each row is a row of the tile then. Linear in the columns.
    pub(crate) fn settle(&mut self)
        ensures tiled { self.new.rows ≡ map (vector_of self.new.tile) (range_with_len 0 (length self.new.rows)) }
        ensures same { self.new.rows ≡ self.old.rows }
        ensures sizes { SameSizes self.old.tile self.new.tile }
    {
        if self.count % 64 == 0 {
            return;
        }
        self.tile.put_block((self.count / 64) as usize, &self.stage);
    }

    /// The tile for the rows.
    pub(crate) fn tile(&self) -> &Tile
        ensures { result.now ≡ self.now.tile }
    {
        &self.tile
    }

    /// Drops all rows.
    pub(crate) fn clear(&mut self)
        ensures cleared { self.new.rows ≡ [] }
        ensures sizes { SameSizes self.old.tile self.new.tile }
    {
        self.count = 0;
    }
}
