/// The most lines that are read.
pub const MAX_LINES: u32 = 1_048_576;

/// The most words of a column of a tile.
pub const MAX_WORDS: usize = 64;
