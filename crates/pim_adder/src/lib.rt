//! An adder to measure by: its netlist, and random rows with the sums that are right.
#![tactic(auto)]

mod drawn;
mod netlist;

pub use drawn::Rows;
pub use netlist::{MAX_BITS, adder};
