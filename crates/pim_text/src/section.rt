use pim_isa::Target;

/// Which lines may come next in the text of a program.
#[derive(Clone, Copy, Debug, PartialEq, Eq)]
pub enum Section {
    /// The first line.
    First,
    /// The target.
    Target,
    /// The number of cells, of a program for this target.
    Cells(Target),
    /// An input, an output, or the number of cycles.
    Inputs,
    /// An output, or the number of cycles.
    Outputs,
    /// As many instructions as this, and then `end`.
    Instrs(u32),
    /// None.
    Ended,
}
