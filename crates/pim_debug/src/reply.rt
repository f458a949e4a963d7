use crate::bits::Bits;

/// What a command that is not refused gives.
#[derive(Debug, Drop)]
pub enum Reply {
    /// The line had no word.
    Nothing,

    /// The run stands at this position: so many instructions were executed.
    At(u32),

    /// A breakpoint has this number and stands at this position.
    Break { number: u64, at: u32 },

    /// The breakpoint of this number was taken away.
    Deleted(u32),

    /// A cell and its bit.
    Cell(u32, bool),

    /// The bits of the output cells, in order.
    Show(Bits),

    /// The session is to end.
    Quit,
}
