//! How a call ends.
ghost use Rattle.std.specs.Prelude.{◌≡◌};
ghost use Rattle.pim_top.specs.Statuses.{code_of};

/// How a call of [`pim`](crate::pim) ended. Its number is the exit status of the program.
#[derive(Clone, Copy, Debug, PartialEq, Eq)]
pub enum Status {
    /// Everything was read that is to be, and everything was written.
    Done,
    /// What was read has a fault: a netlist, a program, assembly, a line of vectors, of commands or of turns; or the two that were
    /// read don't go together.
    BadInput,
    /// There is no word, the command is unknown, or its other words are not words of it.
    Usage,
    /// A source failed, and counted it.
    ReadFault,
    /// The output failed, and counted it.
    WriteFault,
    /// Out of memory.
    NoMemory,
    /// The budget of cells is below what the command needs.
    TooFewCells,
    /// A limit of the tool is passed.
    TooLarge,
    /// A program is not equal to a netlist.
    Unequal,
}

impl Status {
    /// The exit status: 0 for `Done`, and then 1 to 8 in the order of the variants.
    pub fn code(self) -> u8
        ensures { result ≡ code_of self }
    {
        self as u8
    }
}
