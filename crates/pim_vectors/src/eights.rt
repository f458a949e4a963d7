ghost use Rattle.std.specs.Prelude.{◌≡◌, ◌≢◌, ℕ, ◌+◌, ◌*◌, ◌/◌, ◌%◌, ◌<◌, ◌==◌, ◌&&◌, if◌then◌else◌, false, length, map, slice_index};
ghost use Rattle.std.specs.List.{range_with_len};
ghost use Rattle.pim_io.specs.Lanes.{is_set};
ghost use Rattle.pim_io.specs.Bits.{digit_of};
ghost use Rattle.pim_vectors.specs.inner.Cells.{staged_at};

use crate::bits::digit;

/// A byte with one bit written.
fn with_bit(byte: u8, place: u32, bit: bool) -> u8
    requires { place < 8 }
    ensures { (i : ℕ) → i < 8 → is_set result i ≡ (if i == place then bit else is_set byte i) }
{
    let mask = 1u8 << place;
    if bit { byte | mask } else { byte & !mask }
}

/// Whether a bit of a byte is one.
fn bit(byte: u8, place: u32) -> bool
    requires { place < 8 }
    ensures { result ≡ is_set byte place }
{
    (byte >> place) & 1 == 1
}

/// Writes one lane of one column.
fn put_bit(bytes: &mut [u8], columns: usize, column: usize, index: usize, bit: bool)
    requires lane { index < 64 }
    requires column { column < columns }
    requires whole { length bytes.old ≡ 8 * columns }
    ensures { (c r : ℕ) → c < columns → r < 64 → staged_at columns bytes.new c r
        ≡ (if (c == column) && (r == index) then bit else staged_at columns bytes.old c r) }
{
    let at = index / 8 * columns + column;
    bytes[at] = with_bit(bytes[at], (index % 8) as u32, bit);
}

/// Writes the bits of a line of the characters `0` and `1` into one lane of each column.
pub(crate) fn pack_lane(bytes: &mut [u8], columns: usize, index: usize, line: &[u8])
    requires lane { index < 64 }
    requires whole { length bytes.old ≡ 8 * columns }
    requires long { length line.now ≡ columns }
    ensures { (c r : ℕ) → c < columns → r < 64 → staged_at columns bytes.new c r
        ≡ (if r == index then slice_index line.now c == 49 else staged_at columns bytes.old c r) }
{
    for k in 0..columns {
        put_bit(bytes, columns, k, index, line[k] == b'1');
    }
}

/// Writes the characters of one lane of each column into a line.
pub(crate) fn unpack_lane(bytes: &[u8], columns: usize, index: usize, line: &mut [u8])
    requires lane { index < 64 }
    requires whole { length bytes.now ≡ 8 * columns }
    requires long { length line.old ≡ columns }
    ensures { line.new ≡ map (λ c. digit_of (staged_at columns bytes.now c index)) (range_with_len 0 columns) }
{
    for k in 0..columns {
        let byte = bytes[index / 8 * columns + k];
        line[k] = digit(bit(byte, (index % 8) as u32));
    }
}

/// A byte at its place in a word of eight.
fn placed(byte: u8, eight: usize) -> u64
    requires { eight < 8 }
    ensures { (r : ℕ) → r < 64 → is_set result r ≡ (if r / 8 == eight then is_set byte (r % 8) else false) }
{
    (byte as u64) << (8 * eight) as u32
}

/// One of the eight bytes of a word.
fn byte_of(word: u64, eight: usize) -> u8
    requires { eight < 8 }
    ensures { (i : ℕ) → i < 8 → is_set result i ≡ is_set word (8 * eight + i) }
{
    ((word >> (8 * eight) as u32) % 256) as u8
}

/// The lanes of one column as a word.
pub(crate) fn join(bytes: &[u8], columns: usize, column: usize) -> u64
    requires column { column < columns }
    requires whole { length bytes.now ≡ 8 * columns }
    ensures { (r : ℕ) → r < 64 → is_set result r ≡ staged_at columns bytes.now column r }
{
    let mut word = 0;
    for eight in 0..8 {
        word |= placed(bytes[eight * columns + column], eight);
    }
    word
}

/// Writes the lanes of one column, those of a word.
pub(crate) fn split(bytes: &mut [u8], columns: usize, column: usize, word: u64)
    requires column { column < columns }
    requires whole { length bytes.old ≡ 8 * columns }
    ensures written { (r : ℕ) → r < 64 → staged_at columns bytes.new column r ≡ is_set word r }
    ensures others { (c r : ℕ) → c < columns → c ≢ column → r < 64
        → staged_at columns bytes.new c r ≡ staged_at columns bytes.old c r }
{
    for eight in 0..8 {
        bytes[eight * columns + column] = byte_of(word, eight);
    }
}
