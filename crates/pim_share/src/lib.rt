//! Several programs in one row: each has a window of the row's cells for itself, and their instructions are executed in
//! turns.
#![tactic(auto)]

mod fault;
mod merging;
mod moving;
mod parts;
mod pieces;

pub use fault::{ManyFault, ShareFault};
pub use merging::merge;
pub use pieces::parse_many;
