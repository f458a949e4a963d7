/// A breakpoint: its number, and the position at which `run` stops.
#[derive(Clone, Copy, Debug, PartialEq, Eq)]
pub struct Stop {
    pub number: u64,
    pub at: u32,
}
