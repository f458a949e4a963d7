ghost use Rattle.std.specs.Prelude.{◌≡◌, ◌≤◌, ◌∷◌, [], false, length, replicate, IfOk};
ghost use Rattle.pim_isa.specs.Sound.{cells_of};
ghost use Rattle.pim_isa.specs.Steps.{bit, set_ones};
ghost use Rattle.pim_isa.specs.Touches.{operand_cells, writes};
ghost use Rattle.pim_prove.specs.Clean.{are_unequal, first_unset_of, first_unset_output, uses};

use pim_io::NoMemory;
use pim_isa::{Ins, Instr, MAX_PORTS, Operand, Port, Program};
use std::alloc::Global;
use std::marker::Model;

/// Which cells of a row are set so far.
#[derive(Debug, Drop)]
pub(crate) struct Marks {
    marks: Vec<bool>,
}

impl Model for Marks {
    ghost use Rattle.std.specs.Prelude.{Bool, List};

    ghost Value = { List Bool };

    ghost view = { λ m. m.marks.items };
}

impl Marks {
    /// The inputs' cells are set.
    pub(crate) fn new(alloc: Global, program: &Program) -> Result<Marks, NoMemory>
        ensures { IfOk result (λ m. m ≡ set_ones (cells_of program.now.inputs) (replicate program.now.cells false)) }
    {
        let marks = vec![in alloc; false; program.cells() as usize]?;
        let mut marks = Marks { marks };
        for port in program.inputs() {
            marks.set(port.cell);
        }
        Ok(marks)
    }

    /// Whether the cell is set.
    fn is_set(&self, cell: u32) -> bool
        ensures { result ≡ bit self.now cell }
    {
        self.marks.get(cell as usize).copied().unwrap_or(false)
    }

    /// The cell is set from here on.
    fn set(&mut self, cell: u32)
        ensures { self.new ≡ set_ones (cell ∷ []) self.old }
    {
        if let Some(mark) = self.marks.get_mut(cell as usize) {
            *mark = true;
        }
    }

    /// The cells that the instruction writes are set from here on.
    pub(crate) fn write(&mut self, instr: &Instr)
        ensures { self.new ≡ set_ones (writes instr.now) self.old }
    {
        match instr {
            Instr::Init(cells) => self.set_all(cells.list()),
            Instr::Nor { t, .. } => self.set(*t),
            Instr::Rm3 { z, .. } => self.set(*z),
        }
    }

    /// The cells are set from here on.
    fn set_all(&mut self, cells: &[u32])
        ensures { self.new ≡ set_ones cells.now self.old }
    {
        for cell in cells {
            self.set(*cell);
        }
    }

    /// The first of the cells that isn't set.
    fn first_of(&self, cells: &[u32]) -> Option<u32>
        ensures { result ≡ first_unset_of (bit self.now) cells.now }
    {
        for cell in cells {
            if !self.is_set(*cell) {
                return Some(*cell);
            }
        }
        None
    }

    /// The operand's cell, if it has one that isn't set.
    fn operand(&self, operand: Operand) -> Option<u32>
        ensures { result ≡ first_unset_of (bit self.now) (operand_cells operand) }
    {
        match operand {
            Operand::Cell(cell) => self.first_of(&[cell]),
            _ => None,
        }
    }

    /// The first cell that the instruction uses and that isn't set.
    pub(crate) fn unset_of(&self, instr: &Instr) -> Option<u32>
        ensures { result ≡ first_unset_of (bit self.now) (uses instr.now) }
    {
        match instr {
            Instr::Init(_) => None,
            Instr::Nor { t, ins } => match *ins {
                Ins::One(a) => self.first_of(&[a, *t]),
                Ins::Two(a, b) => self.first_of(&[a, b, *t]),
                Ins::Three(a, b, c) => self.first_of(&[a, b, c, *t]),
                Ins::Four(a, b, c, d) => self.first_of(&[a, b, c, d, *t]),
            },
            Instr::Rm3 { p, q, z } => self.rm3(*p, *q, *z),
        }
    }

    /// The first cell that an RM3 uses and that isn't set.
    fn rm3(&self, p: Operand, q: Operand, z: u32) -> Option<u32>
        ensures { result ≡ first_unset_of (bit self.now) (uses (Instr.Rm3 p q z)) }
    {
        let operand = self.operand(p).or(self.operand(q));
        if are_unequal(p, q) {
            return operand;
        }
        operand.or(self.first_of(&[z]))
    }

    /// The number of the first output whose cell isn't set.
    pub(crate) fn unset_output(&self, outputs: &[Port]) -> Option<u32>
        requires { length outputs.now ≤ MAX_PORTS }
        ensures { result ≡ first_unset_output (bit self.now) 0 (cells_of outputs.now) }
    {
        for (number, port) in outputs.iter().enumerate() {
            if !self.is_set(port.cell) {
                return Some(number as u32);
            }
        }
        None
    }
}

/// Whether the operands are the two constants.
fn are_unequal(p: Operand, q: Operand) -> bool
    ensures { result ≡ are_unequal p q }
{
    match (p, q) {
        (Operand::Zero, Operand::One) | (Operand::One, Operand::Zero) => true,
        _ => false,
    }
}
