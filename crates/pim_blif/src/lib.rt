//! The reader of BLIF, the Berkeley Logic Interchange Format, in this project's profile of its combinational part: bytes are
//! cut into statements, their names are numbered by first appearance, and the covers make a netlist, or the first fault.
#![tactic(auto)]

mod cover;
mod directive;
mod fault;
mod file;
mod inputs;
mod line;
mod reader;
mod row;
mod signals;
mod statement;
mod statements;
mod table;
mod word;

pub use fault::BlifFault;
pub use file::read;
