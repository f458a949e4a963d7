//! Netlists of covers: a draft is gathered part by part, and a check of it gives a netlist whose signals all have one
//! driver and a depth, with its equations ordered by depth, or the first fault with its evidence.
#![tactic(auto)]

mod cover;
mod draft;
mod driver;
mod fault;
mod judge;
mod kind;
mod levels;
mod limits;
mod lists;
mod names;
mod net;
mod parts;
mod search;
mod signal_table;
mod signals;
mod table;
mod topo;
mod undriven;
mod visit;

pub use cover::{Bit3, Cover};
pub use draft::Draft;
pub use fault::NetFault;
pub use kind::Kind;
pub use limits::{MAX_COLUMNS, MAX_EQUATIONS, MAX_OUTPUTS, MAX_ROWS, MAX_SIGNALS};
pub use names::{Names, numbered};
pub use net::Net;
pub use parts::{Equation, OutRef};
pub use signal_table::SignalTable;
pub use signals::Signals;
