ghost use Rattle.std.specs.Prelude.{◌≡◌, ◌≢◌, ℕ, ◌+◌, ◌*◌, ◌<◌, ◌≤◌, length, slice_index};
ghost use Rattle.pim_io.specs.Lanes.{is_set};
ghost use Rattle.pim_vectors.specs.inner.Cells.{staged_at};

use crate::eights::{join, split};

/// Writes one word of each column: its lanes in the bytes of a stage.
pub(crate) fn put_words(buffer: &mut [u64], words: usize, at: usize, bytes: &[u8], columns: usize)
    requires within { at < words }
    requires bytes { length bytes.now ≡ 8 * columns }
    requires whole { columns * words ≤ length buffer.old }
    ensures block { (c r : ℕ) → c < columns → r < 64
        → is_set (slice_index buffer.new (c * words + at)) r ≡ staged_at columns bytes.now c r }
    ensures others { (c v : ℕ) → v < words → v ≢ at → slice_index buffer.new (c * words + v) ≡ slice_index buffer.old (c * words + v) }
{
    for c in 0..columns {
        buffer[c * words + at] = join(bytes, columns, c);
    }
}

/// Reads one word of each column into the bytes of a stage.
pub(crate) fn take_words(buffer: &[u64], words: usize, at: usize, bytes: &mut [u8], columns: usize)
    requires within { at < words }
    requires bytes { length bytes.old ≡ 8 * columns }
    requires whole { columns * words ≤ length buffer.now }
    ensures { (c r : ℕ) → c < columns → r < 64
        → staged_at columns bytes.new c r ≡ is_set (slice_index buffer.now (c * words + at)) r }
{
    for c in 0..columns {
        split(bytes, columns, c, buffer[c * words + at]);
    }
}
