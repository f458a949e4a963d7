/// One instruction, which takes one cycle. All cells that it doesn't write stay as they are.
#[derive(Clone, Copy, Debug, PartialEq, Eq)]
pub enum ImplyInstr {
    /// Clears the cell.
    False(u32),

    /// Leaves in `q` whether `p` implies it: `q = not p or q`.
    Imp { p: u32, q: u32 },
}
