/// The most cells that `--cells` may say: the cells of a whole row.
pub const MAX_CELLS: u32 = 1_048_576;
