/// The most cells of a program that is executed in large tiles; of a batch the most outputs too.
pub const MAX_LARGE: u32 = 65_536;

/// How many words a column of a large tile has: 64 rows in each.
pub const LARGE_WORDS: usize = 64;
