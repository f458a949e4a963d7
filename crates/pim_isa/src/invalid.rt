use thiserror::Error;

/// Why a draft is no program: its first fault, with the place, from 0, of the instruction or of the port. Ports are judged
/// before instructions, inputs before outputs, each in order. An instruction is judged for these reasons in the order
/// `WrongTarget`, `InitList`, `CellRange`, `TargetRead`.
#[derive(Clone, Copy, Debug, PartialEq, Eq, Error)]
pub enum Invalid {
    /// A cell that the instruction names isn't below the number of cells.
    #[error("an instruction names a cell that the program doesn't have")]
    CellRange(u32),

    /// The cell that is written stands among the operands.
    #[error("an instruction reads its target")]
    TargetRead(u32),

    /// An Init or a Nor in a PLiM program, or an Rm3 in a MAGIC program.
    #[error("an instruction of another target")]
    WrongTarget(u32),

    /// The list of an Init is empty or not strictly rising.
    #[error("the cells of an Init are missing or out of order")]
    InitList(u32),

    /// The cell of a port isn't below the number of cells, or an input lies in the cell of an earlier input. Outputs count on
    /// after the inputs.
    #[error("a port lies outside the cells or on another input")]
    Port(u32),
}
