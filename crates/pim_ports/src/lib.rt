//! From a netlist to the ports of a program: the labels of its inputs and outputs.
#![tactic(auto)]

mod ports;

pub use ports::ports_of;
