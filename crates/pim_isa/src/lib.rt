//! Programs for one row of memristor cells, as MAGIC and PLiM run them: instructions, drafts of programs, programs that
//! are checked to be valid, and the machine that runs one on one row, a bit a cell.
#![tactic(auto)]

mod cells;
mod check;
mod draft;
mod instr;
mod invalid;
mod machine;
mod port;
mod program;
mod row;
mod target;

pub use cells::Cells;
pub use draft::{MAX_CELLS, MAX_INSTRS, MAX_PORTS, ProgramDraft};
pub use instr::{Ins, Instr, Operand};
pub use invalid::Invalid;
pub use machine::Machine;
pub use port::{Port, Ports};
pub use program::Program;
pub use row::Row;
pub use target::{Fill, Target};
