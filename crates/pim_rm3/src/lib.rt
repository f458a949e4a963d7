//! The schedules of an and-inverter graph and of a majority graph for the machine whose one instruction is the majority of three with
//! an operand complemented. A gate takes over the cell of an operand that it alone reads, and cells are used again.
#![tactic(auto)]

mod cost;
mod emit;
mod gate;
mod gate_graph;
mod loads;
mod mig_graph;
mod over;
mod ports;
mod refusal;
mod role;
mod schedule;
mod smart_schedule;
mod step;
mod taking;
mod temporaries;
mod votes;

pub use cost::rm3_cost;
pub use refusal::{Refusal, SmartFault};
pub use schedule::{base, needed};
pub use smart_schedule::smart;
