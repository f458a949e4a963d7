//! Assembly: a text with names for cells and labels in quotes, which is assembled to a program; and the listing of a program,
//! which is assembled to that program again.
#![tactic(auto)]

mod assembler;
mod assembling;
mod body;
mod fault;
mod labels;
mod listings;
mod names;
mod statement;
mod words;

pub use assembling::assemble;
pub use fault::AsmFault;
pub use listings::listing;
