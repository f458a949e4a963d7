//! The words of each command, read by `clap` into a [`Command`], and when they are refused.
//!
//! The first word is the command, and where that takes a program the second names its file. The
//! others are read by one `clap` command of the name. A name of no command is refused.
#![tactic(auto)]

mod cells;
mod command;
mod compiling;
mod converting;
mod explaining;
mod fault;
mod filling;
mod limits;
mod measuring;
mod no_options;
mod options;
mod program;
mod reading;

pub use command::{Command, FillWord, FormWord, LevelWord, TargetWord};
pub use fault::WordsFault;
pub use limits::MAX_CELLS;
pub use program::program_word;
pub use reading::read;
