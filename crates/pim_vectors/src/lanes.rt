ghost use Rattle.std.specs.Prelude.{◌≡◌, ℕ, ◌+◌, ◌*◌, ◌/◌, ◌%◌, ◌<◌, ◌≤◌, ◌==◌, ◌&&◌, nat_lt, if◌then◌else◌, length, map, slice_index};
ghost use Rattle.std.specs.List.{range_with_len};
ghost use Rattle.pim_io.specs.Lanes.{is_set, lane};
ghost use Rattle.pim_io.specs.Bits.{digit_of};
ghost use Rattle.pim_vectors.specs.inner.Cells.{lane_at};

use crate::bits::{bit, digit, with_bit};

/// Writes one lane of one column.
fn put_bit(buffer: &mut [u64], words: usize, column: usize, index: usize, bit: bool)
    requires lane { index < 64 * words }
    requires column { column * words + words ≤ length buffer.old }
    ensures { (c r : ℕ) → r < 64 * words → lane_at words buffer.new c r
        ≡ (if (c == column) && (r == index) then bit else lane_at words buffer.old c r) }
{
    let at = column * words + index / 64;
    buffer[at] = with_bit(buffer[at], (index % 64) as u32, bit);
}

/// Writes the words of one column.
pub(crate) fn put_column(buffer: &mut [u64], words: usize, column: usize, new: &[u64])
    requires within { column * words + words ≤ length buffer.old }
    requires long { length new.now ≡ words }
    ensures { (c r : ℕ) → r < 64 * words → lane_at words buffer.new c r
        ≡ (if c == column then lane new.now r else lane_at words buffer.old c r) }
{
    let start = column * words;
    buffer[start..start + words].copy_from_slice(new);
}

/// Writes the bits of a line of the characters `0` and `1` into one lane of each column.
pub(crate) fn pack_lane(buffer: &mut [u64], words: usize, index: usize, line: &[u8])
    requires lane { index < 64 * words }
    requires whole { length line.now * words ≤ length buffer.old }
    ensures { (c r : ℕ) → r < 64 * words → lane_at words buffer.new c r
        ≡ (if nat_lt c (length line.now) && (r == index) then slice_index line.now c == 49 else lane_at words buffer.old c r) }
{
    for (column, byte) in line.iter().enumerate() {
        put_bit(buffer, words, column, index, *byte == b'1');
    }
}

/// Writes the characters of one lane of each column into a line.
pub(crate) fn unpack_lane(buffer: &[u64], words: usize, index: usize, line: &mut [u8])
    requires lane { index < 64 * words }
    requires whole { length line.old * words ≤ length buffer.now }
    ensures { line.new ≡ map (λ c. digit_of (lane_at words buffer.now c index)) (range_with_len 0 (length line.old)) }
{
    for (column, byte) in line.iter_mut().enumerate() {
        let word = buffer[column * words + index / 64];
        *byte = digit(bit(word, (index % 64) as u32));
    }
}
