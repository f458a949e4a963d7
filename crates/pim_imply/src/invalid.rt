use thiserror::Error;

/// Why a draft is no program: the first fault, with the place of the instruction or of the port. Ports are judged before
/// instructions, and instructions in order, each for `CellRange` first.
#[derive(Clone, Copy, Debug, PartialEq, Eq, Error)]
pub enum ImplyInvalid {
    /// The cell of a port isn't below the number of cells, or an input cell is repeated. Outputs count on after the inputs.
    #[error("a port lies outside the cells or on another input")]
    Port(u32),

    /// A cell that the instruction names isn't below the number of cells.
    #[error("an instruction names a cell that the program doesn't have")]
    CellRange(u32),

    /// The `imp` at this place names one cell twice.
    #[error("an instruction names one cell twice")]
    SameCell(u32),
}
