//! What the texts of programs share: fields, plain numbers, the lines of targets, numbers, ports and instructions, read and
//! printed, and the reader of a whole text into a draft of its kind. How a word stands for a cell, and how a line is cut into words,
//! are parameters of the reading of an instruction.
#![tactic(auto)]

mod cells;
mod draft;
mod fault;
mod fields;
mod instrs;
mod laws;
mod lines;
mod printing;
mod programs;
mod reader;
mod reading;
mod section;
mod text;

pub use cells::CellWords;
pub use draft::Draft;
pub use fault::TextFault;
pub use fields::{WordWalk, is_text, plain_number};
pub use instrs::instr_from;
pub use laws::line_laws;
pub use lines::{PortLine, counted, port};
pub use printing::{push_instr, push_ports, target_name};
pub use reading::{read_draft, text_laws};
pub use text::Text;
