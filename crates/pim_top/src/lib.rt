//! The one public call of the tool, [`pim`]: from words, sources and sinks to a status. A command that writes its text whole is a
//! function of its words and of the bytes that it reads ([`WholeText`](whole::WholeText)); one shell reads the bytes and writes the
//! text, for all of them. `run` and `implyrun` go on by one line at a time, and so does `debug`. The note of an answer is written
//! once, for all commands.
#![tactic(auto)]

mod commands;
mod judgement;
mod netlist;
mod note;
mod program;
mod reading;
mod refusal;
mod status;
mod top;
mod vector;
mod walk;
mod whole;

pub use pim_words::program_word;
pub use status::Status;
pub use top::{no_memory, pim};
