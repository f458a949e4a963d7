//! The majority-inverter graph: node 0 is false, the inputs come next, and each further node is the majority of three literals of
//! nodes before it. A `Mig` grows by one node at a time, which is shared with each that reads the same three literals.
#![tactic(auto)]

mod converting;
mod graph;
mod laws;
mod node;

pub use converting::from_aig;
pub use graph::Mig;
pub use laws::nodes_have_laws;
pub use node::{MAX_NODES, Maj};
