ghost use Rattle.std.specs.Prelude.{◌≡◌, length, replicate, slice_get, slice_set, true, false, IfOk};
ghost use Rattle.std.specs.List.{list_any};
ghost use Rattle.pim_isa.specs.Touches.{operands};
ghost use Rattle.pim_isa.specs.Steps.{bit, value, majority, set_ones, step};
ghost use Rattle.pim_io.specs.Bits.{bits_of};
ghost use Rattle.pim_isa.specs.Results.{fill_bit, with_inputs};

use crate::instr::{Ins, Instr, Operand};
use crate::port::Port;
use crate::target::Fill;
use pim_io::NoMemory;
use std::alloc::Global;
use std::marker::Model;

/// The bits of the cells of one row.
#[derive(Debug, Drop)]
pub struct Row {
    bits: Vec<bool>,
}

impl Model for Row {
    ghost use Rattle.std.specs.Prelude.{Bool, List};

    ghost Value = { List Bool };

    ghost view = { λ r. r.bits.items };
}

impl Row {
    /// A row of that many cells, which all hold the filling. Linear in the cells.
    pub fn new(alloc: Global, cells: u32, fill: Fill) -> Result<Row, NoMemory>
        ensures { IfOk result (λ row. row ≡ replicate cells (fill_bit fill)) }
    {
        let mut bits = Vec::new(alloc);
        bits.resize(cells as usize, fill.bit())?;
        Ok(Row { bits })
    }

    /// Puts the filling into all cells. Linear in the cells.
    pub fn refill(&mut self, fill: Fill)
        ensures { self.new ≡ replicate (length self.old) (fill_bit fill) }
    {
        self.bits.fill(fill.bit());
    }

    /// Puts the bits into the cells of the inputs, in order. Outside the row nothing is written.
    pub fn put_inputs(&mut self, inputs: &[Port], bits: &[bool])
        ensures bits { self.new ≡ with_inputs inputs.now bits.now self.old }
        ensures long { length self.new ≡ length self.old }
    {
        for (port, bit) in inputs.iter().zip(bits) {
            self.write(port.cell, *bit);
        }
    }

    /// Puts the bits of a line of the characters `0` and `1` into the cells of the inputs, in order.
    pub fn put_line(&mut self, inputs: &[Port], line: &[u8])
        ensures bits { self.new ≡ with_inputs inputs.now (bits_of line.now) self.old }
        ensures long { length self.new ≡ length self.old }
    {
        for (port, digit) in inputs.iter().zip(line) {
            self.write(port.cell, *digit == b'1');
        }
    }

    /// The bit in a cell, and None exactly outside the row.
    pub fn get(&self, cell: u32) -> Option<bool>
        ensures { result ≡ slice_get self.now cell }
    {
        self.bits.get(cell as usize).copied()
    }

    /// The bit in a cell, and false outside the row.
    pub fn bit(&self, cell: u32) -> bool
        ensures { result ≡ bit self.now cell }
    {
        self.bits.get(cell as usize).copied().unwrap_or(false)
    }

    /// Writes a bit into a cell. Outside the row nothing is written.
    pub fn write(&mut self, cell: u32, bit: bool)
        ensures bits { self.new ≡ slice_set self.old cell bit }
        ensures long { length self.new ≡ length self.old }
    {
        if let Some(place) = self.bits.get_mut(cell as usize) {
            *place = bit;
        }
    }

    /// Executes one instruction. Linear in the cells that it names.
    pub fn execute(&mut self, instr: &Instr)
        ensures step { self.new ≡ step self.old instr.now }
        ensures long { length self.new ≡ length self.old }
    {
        match instr {
            Instr::Init(cells) => self.set_ones(cells.list()),
            Instr::Nor { t, ins } => {
                let stays = self.bit(*t) && !self.is_one_of(*ins);
                self.write(*t, stays);
            }
            Instr::Rm3 { p, q, z } => {
                let most = majority(self.value(*p), !self.value(*q), self.bit(*z));
                self.write(*z, most);
            }
        }
    }

    /// Sets the cells to one.
    fn set_ones(&mut self, cells: &[u32])
        ensures { self.new ≡ set_ones cells.now self.old }
    {
        for cell in cells {
            self.write(*cell, true);
        }
    }

    /// Whether one of the operands is one.
    fn is_one_of(&self, ins: Ins) -> bool
        ensures { result ≡ list_any (bit self.now) (operands ins) }
    {
        match ins {
            Ins::One(a) => self.bit(a),
            Ins::Two(a, b) => self.bit(a) || self.bit(b),
            Ins::Three(a, b, c) => self.bit(a) || self.bit(b) || self.bit(c),
            Ins::Four(a, b, c, d) => self.bit(a) || self.bit(b) || self.bit(c) || self.bit(d),
        }
    }

    /// What an operand gives.
    fn value(&self, operand: Operand) -> bool
        ensures { result ≡ value self.now operand }
    {
        match operand {
            Operand::Zero => false,
            Operand::One => true,
            Operand::Cell(cell) => self.bit(cell),
        }
    }
}

impl Fill {
    /// The bit that it puts into a cell.
    fn bit(self) -> bool
        ensures { result ≡ fill_bit self }
    {
        match self {
            Fill::Zeros => false,
            Fill::Ones => true,
        }
    }
}

/// Whether at least two of the three are one.
fn majority(a: bool, b: bool, c: bool) -> bool
    ensures { result ≡ majority a b c }
{
    (a && b) || (a && c) || (b && c)
}
