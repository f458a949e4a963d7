ghost use Rattle.std.specs.Prelude.{◌≡◌, ◌≢◌, ℕ, ◌+◌, ◌-◌, ◌*◌, ◌<◌, ◌≤◌, ◌&&◌, ◌||◌, ◌++◌, not, true, List, length, take, drop, replicate};
ghost use Rattle.pim_isa.specs.Steps.{majority};
ghost use Rattle.pim_io.specs.Lanes.{lane, column_in};
ghost use Rattle.pim_lanes.specs.inner.Columns.{Stored};

use crate::kernels::{nor1_into, nor2_into, ones_into, rm3_into};

/// Sets every lane of column t to one.
pub(crate) fn set_column(buffer: &mut [u64], words: usize, t: usize)
    requires { t * words + words ≤ length buffer.old }
    ensures { Stored words t (λ r. true) buffer.old buffer.new }
{
    let start = t * words;
    ones_into(&mut buffer[start..start + words]);
}

/// Writes the words of column t.
pub(crate) fn put_column(buffer: &mut [u64], words: usize, t: usize, new: &[u64])
    requires within { t * words + words ≤ length buffer.old }
    requires long { length new.now ≡ words }
    ensures { Stored words t (λ r. lane new.now r) buffer.old buffer.new }
{
    let start = t * words;
    buffer[start..start + words].copy_from_slice(new);
}

/// Writes a word all over one column.
pub(crate) fn fill_column(buffer: &mut [u64], words: usize, t: usize, word: u64)
    requires { t * words + words ≤ length buffer.old }
    ensures same { length buffer.new ≡ length buffer.old }
    ensures target { column_in words buffer.new t ≡ replicate words word }
    ensures others { (c : ℕ) → c ≢ t → column_in words buffer.new c ≡ column_in words buffer.old c }
{
    let start = t * words;
    buffer[start..start + words].fill(word);
}

/// Writes a word all over the columns from one on.
pub(crate) fn fill_columns(buffer: &mut [u64], words: usize, first: usize, word: u64)
    requires { first * words ≤ length buffer.old }
    ensures same { length buffer.new ≡ length buffer.old }
    ensures filled { drop (first * words) buffer.new ≡ replicate (length buffer.old - first * words) word }
    ensures others { (c : ℕ) → c < first → column_in words buffer.new c ≡ column_in words buffer.old c }
{
    let start = first * words;
    buffer[start..].fill(word);
}

/// Executes a NOR of column a in every lane of column t.
pub(crate) fn nor1_column(buffer: &mut [u64], words: usize, t: usize, a: usize)
    requires t_within { t * words + words ≤ length buffer.old }
    requires a_within { a * words + words ≤ length buffer.old }
    requires a_apart { a ≢ t }
    ensures { Stored words t
        (λ r. lane (column_in words buffer.old t) r && not (lane (column_in words buffer.old a) r))
        buffer.old buffer.new }
{
    let (below, rest) = buffer.split_at_mut(t * words);
    let (target, above) = rest.split_at_mut(words);
    nor1_into(target, column_beside(below, above, words, t, a));
}

/// Executes a NOR of the columns a and b in every lane of column t.
pub(crate) fn nor2_column(buffer: &mut [u64], words: usize, t: usize, a: usize, b: usize)
    requires t_within { t * words + words ≤ length buffer.old }
    requires a_within { a * words + words ≤ length buffer.old }
    requires b_within { b * words + words ≤ length buffer.old }
    requires a_apart { a ≢ t }
    requires b_apart { b ≢ t }
    ensures { Stored words t
        (λ r. lane (column_in words buffer.old t) r
        && not (lane (column_in words buffer.old a) r || lane (column_in words buffer.old b) r))
        buffer.old buffer.new }
{
    let (below, rest) = buffer.split_at_mut(t * words);
    let (target, above) = rest.split_at_mut(words);
    let first = column_beside(below, above, words, t, a);
    let second = column_beside(below, above, words, t, b);
    nor2_into(target, first, second);
}

/// Executes an RM3 of the columns p and q in every lane of column z.
pub(crate) fn rm3_column(buffer: &mut [u64], words: usize, z: usize, p: usize, q: usize)
    requires z_within { z * words + words ≤ length buffer.old }
    requires p_within { p * words + words ≤ length buffer.old }
    requires q_within { q * words + words ≤ length buffer.old }
    requires p_apart { p ≢ z }
    requires q_apart { q ≢ z }
    ensures { Stored words z
        (λ r. majority (lane (column_in words buffer.old p) r) (not (lane (column_in words buffer.old q) r))
        (lane (column_in words buffer.old z) r))
        buffer.old buffer.new }
{
    let (below, rest) = buffer.split_at_mut(z * words);
    let (target, above) = rest.split_at_mut(words);
    let first = column_beside(below, above, words, z, p);
    let second = column_beside(below, above, words, z, q);
    rm3_into(target, first, second);
}

/// Column c of columns of which column t lies between those below it and those above it.
pub(crate) fn column_beside<'a>(
    below: &'a [u64],
    above: &'a [u64],
    words: usize,
    t: usize,
    c: usize,
) -> &'a [u64]
    requires apart { c ≢ t }
    requires front { length below.now ≡ t * words }
    requires within { c * words ≤ length below.now + length above.now }
    ensures value { (target : List ℕ) → length target ≡ words
        → result.now ≡ column_in words (below.now ++ (target ++ above.now)) c }
    ensures long { length result.now ≡ words }
{
    let start = c * words;
    if c < t {
        return &below[start..start + words];
    }
    let start = start - below.len() - words;
    &above[start..start + words]
}
