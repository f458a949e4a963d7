//! `list`, `explain`, `asm` and `convert`: the AND in each spelling, trees, faults with their notes, and sources and sinks that fail.
mod faults;
mod outside;
mod spellings;
mod tree;

/// The binary form of the program of a two-input AND, of 37 bytes.
pub const BINARY: &[u8] =
    b"pim2\n\x00\x05\x02\x00\x02i0\x01\x02i1\x01\x04\x02o0\x04\x00\x03\x02\x03\x04\x01\x02\x01\x01\x03\x00\x02\x04\x02\x03";

/// Its listing.
pub const LISTING: &[u8] =
    b"target magic\ncells 5\ninput 0 \"i0\"\ninput 1 \"i1\"\noutput 4 \"o0\"\ninit 2 3 4 ; 0\nnot 2 1 ; 1\nnot 3 0 ; 2\nnor 4 2 3 ; 3\n";

/// The lives of its cells.
pub const LIVES: &[u8] =
    b"cell 0: in..2\ncell 1: in..1\ncell 2: 0..- 1..3\ncell 3: 0..- 2..3\ncell 4: 0..- 3..out\ncells 5 cycles 4\n";
