//! The commands, one file each, and the replies of `debug`.
pub mod asm;
pub mod bench;
pub mod compile;
pub mod convert;
pub mod debug;
pub mod explain;
pub mod imply;
pub mod implyrun;
pub mod list;
pub mod prove;
pub mod reply;
pub mod run;
pub mod share;
