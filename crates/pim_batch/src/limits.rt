/// How many words a column of a small tile has: 64 rows in each.
pub(crate) const SMALL_WORDS: usize = 4;
