//! A debugger of programs: a session executes a program on one row, forward and back, stops at breakpoints and tells the cells.
#![tactic(auto)]

mod bits;
mod command;
mod fault;
mod history;
mod reply;
mod session;
mod stop;
mod stops;

pub use bits::Bits;
pub use fault::DebugFault;
pub use reply::Reply;
pub use session::Session;
pub use stop::Stop;
