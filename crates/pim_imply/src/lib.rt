//! The machine with the two operations of material implication, `false` and `imp`: programs for it, their text, the machine of one
//! row, and the schedule of an and-inverter graph for it.
#![tactic(auto)]

mod compiling;
mod draft;
mod emit;
mod fault;
mod graph;
mod instr;
mod invalid;
mod lines;
mod machine;
mod parsing;
mod printing;
mod program;
mod refusal;
mod scheduling;

pub use compiling::compile_imply;
pub use draft::ImplyDraft;
pub use fault::ImplyFault;
pub use instr::ImplyInstr;
pub use invalid::ImplyInvalid;
pub use machine::ImplyMachine;
pub use parsing::parse_imply;
pub use printing::print_imply;
pub use program::ImplyProgram;
pub use refusal::ImplyRefusal;
