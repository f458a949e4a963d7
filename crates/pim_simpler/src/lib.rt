//! The MAGIC schedule: a NOR network becomes a program for one row. Inputs stand in the first cells and are never written;
//! gates are executed in the order of their cell usage, each into the least free cell, cells are taken again as soon as
//! their value is no longer needed, and many of them are initialised at once.
#![tactic(auto)]

mod free_cells;
mod ports;
mod refusal;
mod scheduler;
mod scheduling;

pub use refusal::Refusal;
pub use scheduling::{needed, schedule};
