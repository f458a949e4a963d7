//! AIGER netlists: the bytes of a file in the ASCII or the binary form become a checked netlist of one cover per AND
//! gate, or the first fault in the file with its byte place.
#![tactic(auto)]

mod fault;
mod file;
mod header;
mod labels;
mod literal;
mod names;
mod parts;
mod reader;
mod symbol;
mod words;

pub use fault::AigerFault;
pub use file::{is_aiger, read, read_binary, read_text};
