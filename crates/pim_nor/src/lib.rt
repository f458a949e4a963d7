//! NOR networks: `lower` turns an and-inverter graph into gates of one to four operands, each a NOR of what it reads.
//! A gate stands for a node or for its complement, exists once, and only where an output reaches it. `NorNet::graph` says
//! which gates read which, for their order.
#![tactic(auto)]

mod gate_graph;
mod kept;
mod leaves;
mod lowering;
mod network;
mod plan;
mod reach;
mod singles;
mod slots;

pub use lowering::{Width, lower};
pub use network::{Gate, MAX_GATES, NorNet, Pin};
