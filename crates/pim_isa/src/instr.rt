ghost use Rattle.std.specs.Prelude.{◌≡◌};
ghost use Rattle.pim_isa.specs.Touches.{operands, operand_cells, names, writes};
ghost use Rattle.pim_isa.specs.Validity.{has, leaves, reads_target};

use crate::cells::Cells;
use std::slice;

/// What an RM3 reads: a constant or a cell.
#[derive(Clone, Copy, Debug, PartialEq, Eq)]
pub enum Operand {
    Zero,
    One,
    Cell(u32),
}

/// The one to four cells that a NOR reads, in order.
#[derive(Clone, Copy, Debug, PartialEq, Eq)]
pub enum Ins {
    One(u32),
    Two(u32, u32),
    Three(u32, u32, u32),
    Four(u32, u32, u32, u32),
}

/// One instruction, which takes one cycle. All cells that it doesn't write stay as they are.
#[derive(Debug, Drop)]
pub enum Instr {
    /// Sets the cells to one.
    Init(Cells),

    /// Leaves the target at one where it was one and no operand is one: `t = t and not (a or b or ..)`.
    Nor { t: u32, ins: Ins },

    /// The majority of three: `z = maj(p, not q, z)`.
    Rm3 { p: Operand, q: Operand, z: u32 },
}

impl Operand {
    /// Whether it is this cell.
    fn has(self, cell: u32) -> bool
        ensures { result ≡ has cell (operand_cells self) }
    {
        match self {
            Operand::Cell(c) => c == cell,
            _ => false,
        }
    }

    /// Whether it is a cell that isn't below `cells`.
    fn leaves(self, cells: u32) -> bool
        ensures { result ≡ leaves cells (operand_cells self) }
    {
        match self {
            Operand::Cell(c) => c >= cells,
            _ => false,
        }
    }
}

impl Ins {
    /// Whether the cell is among them.
    fn has(self, cell: u32) -> bool
        ensures { result ≡ has cell (operands self) }
    {
        match self {
            Ins::One(a) => a == cell,
            Ins::Two(a, b) => a == cell || b == cell,
            Ins::Three(a, b, c) => a == cell || b == cell || c == cell,
            Ins::Four(a, b, c, d) => a == cell || b == cell || c == cell || d == cell,
        }
    }

    /// Whether one of them isn't below `cells`.
    fn leaves(self, cells: u32) -> bool
        ensures { result ≡ leaves cells (operands self) }
    {
        match self {
            Ins::One(a) => a >= cells,
            Ins::Two(a, b) => a >= cells || b >= cells,
            Ins::Three(a, b, c) => a >= cells || b >= cells || c >= cells,
            Ins::Four(a, b, c, d) => a >= cells || b >= cells || c >= cells || d >= cells,
        }
    }
}

impl Instr {
    /// The cells that it writes, in order.
    pub fn writes(&self) -> &[u32]
        ensures { result.now ≡ writes self.now }
    {
        match self {
            Instr::Init(cells) => cells.list(),
            Instr::Nor { t, .. } => slice::from_ref(t),
            Instr::Rm3 { z, .. } => slice::from_ref(z),
        }
    }

    /// Whether a cell that it names isn't below `cells`.
    pub(crate) fn leaves(&self, cells: u32) -> bool
        ensures { result ≡ leaves cells (names self.now) }
    {
        match self {
            Instr::Init(list) => list.list().iter().any(|c| *c >= cells),
            Instr::Nor { t, ins } => *t >= cells || ins.leaves(cells),
            Instr::Rm3 { p, q, z } => *z >= cells || p.leaves(cells) || q.leaves(cells),
        }
    }

    /// Whether a cell that it writes stands among its operands.
    pub(crate) fn reads_target(&self) -> bool
        ensures { result ≡ reads_target self.now }
    {
        match self {
            Instr::Init(_) => false,
            Instr::Nor { t, ins } => ins.has(*t),
            Instr::Rm3 { p, q, z } => p.has(*z) || q.has(*z),
        }
    }
}
