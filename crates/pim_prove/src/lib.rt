//! Whether a program computes a netlist: for every vector and whatever the other cells hold, or at which vector it first doesn't.
#![tactic(auto)]

mod blocks;
mod comparing;
mod digits;
mod fault;
mod marks;
mod proving;
mod unset;
mod values;
mod verdict;

pub use fault::ProveFault;
pub use proving::{MAX_PROVE_INPUTS, prove};
pub use unset::{Unset, first_unset};
pub use verdict::Verdict;
