ghost use Rattle.std.specs.Prelude.{◌≡◌, ◌<◌, ◌≤◌, ◌↔◌, length, slice_get, IsTrue, IsNone, IfOk};
ghost use Rattle.pim_io.specs.Bits.{bits_of};
ghost use Rattle.pim_imply.specs.Machines.{istep, load, next_of};

use crate::instr::ImplyInstr;
use crate::program::ImplyProgram;
use pim_io::NoMemory;
use pim_isa::{Fill, Row};
use std::alloc::Global;
use std::marker::Model;

/// One run of a program on one row of cells, an instruction at a time.
#[derive(Debug, Drop)]
pub struct ImplyMachine<'a> {
    program: &'a ImplyProgram,
    row: Row,
    at: u32,
}

impl<'a> Model for ImplyMachine<'a> {
    ghost use Rattle.std.specs.Prelude.{◌≡◌, ◌≤◌, length};
    ghost use Rattle.pim_isa.specs.declared.draft.TheConstants.{MAX_INSTRS};
    ghost use Rattle.pim_imply.specs.Machines.{ImplyMachineView};

    ghost Value = { ImplyMachineView };

    ghost view = { λ m. record { program = m.program.now; row = m.row; at = m.at } };

    ghost invariant = { λ m. (length m.row ≡ m.program.now.cells) × (m.at ≤ length m.program.now.instrs) × (length m.program.now.instrs ≤ MAX_INSTRS) };
}

/// Executes one instruction. Constant time.
fn execute(row: &mut Row, instr: ImplyInstr)
    ensures step { row.new ≡ istep row.old instr }
    ensures long { length row.new ≡ length row.old }
{
    match instr {
        ImplyInstr::False(q) => row.write(q, false),
        ImplyInstr::Imp { p, q } => {
            let implied = !row.bit(p) || row.bit(q);
            row.write(q, implied);
        }
    }
}

impl<'a> ImplyMachine<'a> {
    /// The machine at the start: the bits lie in the input cells in order, and the filling in all other cells.
    /// Linear in the cells.
    pub fn load(
        alloc: Global,
        program: &'a ImplyProgram,
        vector: &[bool],
        fill: Fill,
    ) -> Result<ImplyMachine<'a>, NoMemory>
        requires { length vector.now ≡ length program.now.inputs }
        ensures state { IfOk result (λ m. m ≡ record { program = program.now; row = load program.now fill vector.now; at = 0 }) }
    {
        let mut row = Row::new(alloc, program.cells(), fill)?;
        row.put_inputs(program.inputs(), vector);
        let _ = program.instrs();
        Ok(ImplyMachine {
            program,
            row,
            at: 0,
        })
    }

    /// Back to the start, with the bits of a line of as many characters `0` and `1` as inputs. Linear in the cells.
    pub fn reload(&mut self, line: &[u8], fill: Fill)
        requires { length line.now ≡ length self.old.program.inputs }
        ensures state { self.new ≡ record self.old { row = load self.old.program fill (bits_of line.now); at = 0 } }
    {
        self.row.refill(fill);
        self.row.put_line(self.program.inputs(), line);
        self.at = 0;
    }

    /// Executes the next instruction. False exactly at the end, where nothing changes. Constant time.
    pub fn step(&mut self) -> bool
        ensures more { IsTrue result ↔ (self.old.at < length self.old.program.instrs) }
        ensures next { self.new ≡ next_of self.old }
    {
        let Some(instr) = self.program.instrs().get(self.at as usize).copied() else {
            return false;
        };
        execute(&mut self.row, instr);
        self.at += 1;
        true
    }

    /// The bit in a cell, and None exactly where the program has no such cell.
    pub fn cell(&self, c: u32) -> Option<bool>
        ensures value { result ≡ slice_get self.now.row c }
        ensures outside { IsNone result ↔ (self.now.program.cells ≤ c) }
    {
        self.row.get(c)
    }
}
