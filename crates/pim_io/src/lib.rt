//! The outside of the tool, and what every reader of bytes stands on: sources and sinks with counted faults, the labels
//! of names, borrowed scanning of lines and words, decimal numbers and seven-bit codes.
#![tactic(auto)]

mod codes;
mod limits;
mod mem_sink;
mod mem_source;
mod memory;
mod name;
mod read_source;
mod reading;
mod scan;
mod sink;
mod slice_source;
mod source;
mod words;
mod write_sink;
mod writing;

pub use codes::{Code, get_code, put_code};
pub use limits::{MAX_INPUT, MAX_NAME, MAX_PROGRAM};
pub use mem_sink::MemSink;
pub use mem_source::MemSource;
pub use memory::NoMemory;
pub use name::{Name, is_label};
pub use read_source::ReadSource;
pub use reading::{ReadAllFault, read_all};
pub use scan::{Line, Scan, text_of, without_return};
pub use sink::{Sink, SinkFault};
pub use slice_source::SliceSource;
pub use source::{Source, SourceFault};
pub use words::{Words, first_space, is_blank, number};
pub use write_sink::WriteSink;
pub use writing::{tell_writes, write_all, write_pieces};
