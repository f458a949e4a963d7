/// How a life begins.
#[derive(Clone, Copy, Debug, PartialEq, Eq)]
pub enum Start {
    /// With the input's bit, before the first instruction.
    Load,

    /// With the instruction at this place, which writes the cell.
    At(u32),
}

/// How a life ends.
#[derive(Clone, Copy, Debug, PartialEq, Eq)]
pub enum End {
    /// Nothing reads the value.
    Unread,

    /// The instruction at this place is the last that reads it.
    Read(u32),

    /// It is the value of an output.
    Output,
}

/// A value in a cell, from where it is put there to its last use.
#[derive(Clone, Copy, Debug, PartialEq, Eq)]
pub struct Life {
    pub cell: u32,
    pub start: Start,
    pub end: End,
}
