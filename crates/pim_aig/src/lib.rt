//! The and-inverter graph: node 0 is false, the inputs come next, and each further node is the AND of two literals of
//! nodes before it. An `Aig` grows by one node at a time and folds nothing, and its contracts see it as lists.
#![tactic(auto)]

mod chain;
mod cover;
mod fault;
mod flattening;
mod graph;
mod literal;
mod moving;

pub use fault::FlatFault;
pub use flattening::flatten;
pub use graph::{Aig, And, MAX_ANDS, MAX_INPUTS, MAX_OUTPUTS};
pub use literal::Lit;
pub use moving::{moved, plain_literals};
