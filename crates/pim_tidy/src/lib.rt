//! The tidied form of an and-inverter graph: constants are folded, and nodes that read the same two literals are one.
#![tactic(auto)]

mod pair;
mod tidying;

pub use tidying::tidy;
