//! When each cell of a program is in use: its lifetimes as a list, and the text that explains a program by them; and the graph of
//! a MAGIC program's NORs, with whether it is a tree.
#![tactic(auto)]

mod drawing;
mod explanation;
mod life;
mod lifetimes;
mod track;
mod tracks;
mod tree_fault;
mod tree_line;

pub use drawing::nor_graph;
pub use explanation::explain;
pub use life::{End, Life, Start};
pub use lifetimes::lives;
pub use tree_fault::TreeFault;
pub use tree_line::explain_tree;
