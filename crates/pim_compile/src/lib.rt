//! From a netlist to a program: the levels of effort, and the way through flattening, lowering and scheduling.
#![tactic(auto)]

mod compiling;
mod fit;
mod job;
mod magic;
mod plim;
mod refusal;
mod shorter;

pub use compiling::{Level, compile, need};
pub use refusal::Refusal;
