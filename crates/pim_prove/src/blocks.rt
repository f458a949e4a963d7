ghost use Rattle.std.specs.Prelude.{◌≡◌, ℕ, ◌<◌, slice_index, bit_and, bit_xor};

/// How many words are evaluated at once.
pub(crate) const BLOCK: usize = 8;

/// The bits that are one in both words, for each word.
pub(crate) fn both(x: [u64; BLOCK], y: [u64; BLOCK]) -> [u64; BLOCK]
    ensures { (j : ℕ) → j < BLOCK → slice_index result j ≡ bit_and (slice_index x j) (slice_index y j) }
{
    let mut words = [0; BLOCK];
    for k in 0..BLOCK {
        words[k] = x[k] & y[k];
    }
    words
}

/// Each word with the bits of a mask flipped.
pub(crate) fn flipped(x: [u64; BLOCK], mask: u64) -> [u64; BLOCK]
    ensures { (j : ℕ) → j < BLOCK → slice_index result j ≡ bit_xor (slice_index x j) mask }
{
    let mut words = [0; BLOCK];
    for k in 0..BLOCK {
        words[k] = x[k] ^ mask;
    }
    words
}
