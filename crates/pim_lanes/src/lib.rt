//! Rows of cells side by side, 64 in a word: the machine's instructions as kernels over columns of words.
#![tactic(auto)]

mod bank;
mod columns;
mod kernels;
mod limits;
mod parts;

pub use bank::Bank;
pub use kernels::{nor1_into, nor2_into, ones_into, rm3_into};
pub use limits::{LARGE_WORDS, MAX_LARGE};
