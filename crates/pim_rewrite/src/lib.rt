//! Rewriting of majority graphs by the laws of majority: complements move from operands to the readers, and majorities that share
//! two operands give these to one.
#![tactic(auto)]

mod cases;
mod passes;
mod reading;
mod rewriting;

pub use rewriting::{MAX_REWRITTEN, rewrite};
