//! Vectors that are executed together: each is a row of a tile, a program runs in all rows of a bank at once, and a line of
//! characters is written for each.
#![tactic(auto)]

mod batch;
mod executor;
mod imply;
mod limits;
mod lines;
mod majorities;
mod packed;
mod passes;
mod rows;

pub use batch::Batch;
pub use executor::Executor;
pub use imply::ImplyBatch;
pub use rows::{gather_results, load_vectors};
