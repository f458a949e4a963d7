//! Vectors of bits from lines of text: lines from a source, one buffer for all, and tiles of vectors, 64 in a word.
#![tactic(auto)]

mod bits;
mod blocks;
mod bytes;
mod eights;
mod fault;
mod fits;
mod found;
mod lanes;
mod limits;
mod lines;
mod sizes;
mod stage;
mod tile;

pub use fault::LinesFault;
pub use fits::vector_fits;
pub use limits::{MAX_LINES, MAX_WORDS};
pub use lines::Lines;
pub use stage::Stage;
pub use tile::Tile;
