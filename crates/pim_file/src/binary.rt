//! The binary form of a program, written and read.

mod instrs;
mod items;
mod parsing;
mod printing;

pub(crate) use parsing::{has_tag, parse_binary};
pub use printing::print_binary;
