ghost use Rattle.std.specs.Prelude.{◌≡◌, ℕ, ◌+◌, ◌*◌, ◌<◌, ◌≤◌, ◌==◌, if◌then◌else◌, length, slice_index, IfOk};
ghost use Rattle.pim_io.specs.Bits.{bits_of, line_of};
ghost use Rattle.pim_io.specs.Lanes.{is_set};
ghost use Rattle.pim_vectors.specs.Stages.{staged};
ghost use Rattle.pim_vectors.specs.Tiles.{vector_of, IsVector};

use crate::eights;
use crate::tile::Tile;
use pim_io::NoMemory;
use std::alloc::Global;
use std::marker::Model;

/// Up to 64 vectors of bits on their way into a tile or out of one. A byte has eight of them at one place, so that many places of a
/// line are packed or unpacked at once.
#[derive(Debug, Drop)]
pub struct Stage {
    bytes: Vec<u8>,
    columns: u32,
}

impl Model for Stage {
    ghost use Rattle.pim_vectors.specs.Stages.{StageView};
    ghost use Rattle.pim_vectors.specs.inner.Kept.{IsWhole};

    ghost Value = { StageView };

    ghost view = { λ s. record { columns = s.columns; bytes = s.bytes.items } };

    ghost invariant = { λ s. IsWhole (record { columns = s.columns; bytes = s.bytes.items }) };
}

impl Stage {
    ghost use Rattle.pim_vectors.specs.inner.Kept.{IsWhole};

    /// A stage for vectors of that many bits. Takes memory for all of them at once.
    pub fn new(alloc: Global, columns: u32) -> Result<Stage, NoMemory>
        ensures { IfOk result (λ stage. stage.columns ≡ columns) }
    {
        Ok(Stage {
            bytes: vec![in alloc; 0; 8 * columns as usize]?,
            columns,
        })
    }

    /// Writes the bits of a line of the characters `0` and `1` into a lane. Linear in the line.
    pub fn pack(&mut self, index: u32, line: &[u8])
        requires lane { index < 64 }
        requires fits { IsVector self.old.columns line.now }
        ensures vectors { (r : ℕ) → r < 64 → staged self.new r ≡ (if r == index then bits_of line.now else staged self.old r) }
        ensures columns { self.new.columns ≡ self.old.columns }
    {
        let columns = self.columns as usize;
        eights::pack_lane(&mut self.bytes, columns, index as usize, line);
    }

    /// Writes the bits of a lane as the characters `0` and `1` into a line. Linear in the line.
    pub fn unpack(&self, index: u32, line: &mut [u8])
        requires lane { index < 64 }
        requires long { length line.old ≡ self.now.columns }
        ensures { line.new ≡ line_of (staged self.now index) }
    {
        let columns = self.columns as usize;
        eights::unpack_lane(&self.bytes, columns, index as usize, line);
    }

    /// Takes over 64 lanes of a tile, those that stand in the same word of each column. Linear in the columns.
    pub fn take_block(&mut self, from: &Tile, at: usize)
        requires within { at < from.now.words }
        requires columns { from.now.columns ≡ self.old.columns }
        ensures vectors { (r : ℕ) → r < 64 → staged self.new r ≡ vector_of from.now (64 * at + r) }
        ensures columns { self.new.columns ≡ self.old.columns }
    {
        let columns = self.columns as usize;
        from.take_words(at, &mut self.bytes, columns);
    }

    /// The bytes of all columns.
    pub(crate) fn bytes(&self) -> &[u8]
        ensures value { result.now ≡ self.now.bytes }
        ensures whole { length result.now ≡ 8 * self.now.columns }
    {
        &self.bytes
    }
}
