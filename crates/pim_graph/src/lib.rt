//! Graphs of gates that read gates before them: how many cells each gate's value takes to compute, the order in which a
//! depth-first visit guided by that computes them, and how many values are held at once.
#![tactic(auto)]

mod allotments;
mod falling;
mod graph;
mod ordering;
mod peaks;
mod readers;
mod spares;
mod trees;
mod usages;
mod walk;

pub use allotments::{Allotment, allot};
pub use graph::Graph;
pub use ordering::order;
pub use peaks::peak;
pub use readers::Readers;
pub use trees::tree;
pub use usages::usage;
