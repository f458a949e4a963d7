ghost use Rattle.std.specs.Prelude.{◌≡◌, ◌<◌, ◌≤◌, ◌↔◌, Bool, List, length, slice_get, IsTrue, IsNone, IfOk};
ghost use Rattle.pim_isa.specs.Steps.{exec_k};
ghost use Rattle.pim_isa.specs.Results.{load, IsLoaded};
ghost use Rattle.pim_isa.specs.Machines.{next_of};

use crate::program::Program;
use crate::row::Row;
use crate::target::Fill;
use pim_io::NoMemory;
use std::alloc::Global;
use std::marker::Model;

/// One run of a program on one row of cells, an instruction at a time.
#[derive(Debug, Drop)]
pub struct Machine<'a> {
    program: &'a Program,
    row: Row,
    at: u32,
}

impl<'a> Model for Machine<'a> {
    ghost use Rattle.std.specs.Prelude.{◌≡◌, ◌≤◌, length};
    ghost use Rattle.pim_isa.specs.Machines.{MachineView};
    ghost use Rattle.pim_isa.specs.Sound.{IsProgram};

    ghost Value = { MachineView };

    ghost view = { λ m. record { program = m.program.now; row = m.row; at = m.at } };

    ghost invariant = { λ m. (length m.row ≡ m.program.now.cells) × (m.at ≤ length m.program.now.instrs) × IsProgram m.program.now };
}

impl<'a> Machine<'a> {
    /// The machine at the start: the bits lie in the input cells in order, and the filling in all other cells.
    /// Linear in the cells.
    pub fn load(
        alloc: Global,
        program: &'a Program,
        vector: &[bool],
        fill: Fill,
    ) -> Result<Machine<'a>, NoMemory>
        requires { length vector.now ≡ length program.now.inputs }
        ensures state { IfOk result (λ m. m ≡ record { program = program.now; row = load program.now fill vector.now; at = 0 }) }

        // The same cell by cell.
        ensures loaded { IfOk result (λ m. IsLoaded program.now fill vector.now m.row) }
    {
        let mut row = Row::new(alloc, program.cells(), fill)?;
        row.put_inputs(program.inputs(), vector);
        Ok(Machine {
            program,
            row,
            at: 0,
        })
    }

    /// Executes the next instruction. False exactly at the end, where nothing changes.
    /// The cost is that of the cells that the instruction names.
    pub fn step(&mut self) -> bool
        ensures more { IsTrue result ↔ (self.old.at < length self.old.program.instrs) }
        ensures next { self.new ≡ next_of self.old }
        ensures program { self.new.program ≡ self.old.program }

        // Where the row was that of the instructions so far, from any row at the start, it is so again.
        ensures follows { (start : List Bool) → self.old.row ≡ exec_k self.old.at self.old.program.instrs start
            → self.new.row ≡ exec_k self.new.at self.old.program.instrs start }
    {
        let Some(instr) = self.program.instrs().get(self.at as usize) else {
            return false;
        };
        self.row.execute(instr);
        self.at += 1;
        true
    }

    /// How many instructions were executed.
    pub fn at(&self) -> u32
        ensures value { result ≡ self.now.at }
        ensures within { self.now.at ≤ length self.now.program.instrs }
    {
        self.at
    }

    /// The bit in a cell, and None exactly where the program has no such cell.
    pub fn cell(&self, c: u32) -> Option<bool>
        ensures value { result ≡ slice_get self.now.row c }
        ensures outside { IsNone result ↔ (self.now.program.cells ≤ c) }
        ensures cells { length self.now.row ≡ self.now.program.cells }
    {
        self.row.get(c)
    }
}
