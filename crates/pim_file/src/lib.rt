//! The program file: the text and the binary form that a program is written as, and read from.
#![tactic(auto)]

mod binary;
mod fault;
mod kept;
mod parsing;
mod printing;

pub use binary::print_binary;
pub use fault::FileFault;
pub use parsing::{parse, parse_text};
pub use printing::print;
