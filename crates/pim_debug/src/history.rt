ghost use Rattle.std.specs.Prelude.{◌≡◌, ◌+◌, ◌-◌, ◌<◌, ◌≤◌, ◌↔◌, ◌++◌, length, map, slice_get, IfOk, OnOk, OnErr, IsNone};
ghost use Rattle.pim_isa.specs.Results.{load};
ghost use Rattle.pim_isa.specs.Steps.{bit, exec_k};
ghost use Rattle.pim_debug.specs.inner.Histories.{put};

use pim_io::NoMemory;
use pim_isa::{Fill, Program, Row};
use std::alloc::Global;
use std::marker::Model;

/// One run of a program on one row, which can be taken back: it keeps the bits that were overwritten.
#[derive(Debug, Drop)]
pub(crate) struct History<'a> {
    program: &'a Program,
    row: Row,
    at: u32,

    // The old bits of the cells that the executed instructions wrote, in their order.
    log: Vec<bool>,
}

impl<'a> Model for History<'a> {
    ghost use Rattle.pim_debug.specs.inner.Histories.{HistoryView, IsHistory, taken_back};

    ghost Value = { HistoryView };

    ghost view = { λ h. record { program = h.program.now; start = taken_back h.at h.program.now.instrs h.log.items h.row; at = h.at } };

    ghost invariant = { λ h. IsHistory h.program.now (taken_back h.at h.program.now.instrs h.log.items h.row) h.row h.log.items h.at };
}

impl<'a> History<'a> {
    /// The run at its start: the bits lie in the input cells in order, and the filling in all other cells.
    pub(crate) fn new(
        alloc: Global,
        program: &'a Program,
        vector: &[bool],
        fill: Fill,
    ) -> Result<History<'a>, NoMemory>
        requires { length vector.now ≡ length program.now.inputs }
        ensures { IfOk result (λ h. h ≡ record { program = program.now; start = load program.now fill vector.now; at = 0 }) }
    {
        let mut row = Row::new(alloc, program.cells(), fill)?;
        row.put_inputs(program.inputs(), vector);
        Ok(History {
            program,
            row,
            at: 0,
            log: Vec::new(alloc),
        })
    }

    /// The program.
    pub(crate) fn program(&self) -> &'a Program
        ensures { result.now ≡ self.now.program }
    {
        self.program
    }

    /// The last position: the number of the program's instructions.
    pub(crate) fn last(&self) -> u32
        ensures { result ≡ length self.now.program.instrs }
    {
        self.program.instrs().len() as u32
    }

    /// The bit in a cell, and false where the program has no such cell.
    pub(crate) fn bit(&self, c: u32) -> bool
        ensures { result ≡ bit (exec_k self.now.at self.now.program.instrs self.now.start) c }
    {
        self.row.bit(c)
    }

    /// How many instructions are executed.
    pub(crate) fn at(&self) -> u32
        ensures value { result ≡ self.now.at }
        ensures within { self.now.at ≤ length self.now.program.instrs }
    {
        self.at
    }

    /// The bit in a cell, and None exactly where the program has no such cell.
    pub(crate) fn cell(&self, c: u32) -> Option<bool>
        ensures value { result ≡ slice_get (exec_k self.now.at self.now.program.instrs self.now.start) c }
        ensures outside { IsNone result ↔ (self.now.program.cells ≤ c) }
    {
        self.row.get(c)
    }

    /// Executes the next instruction. Linear in the cells that it names. Where there is no memory nothing changes.
    pub(crate) fn forward(&mut self) -> Result<(), NoMemory>
        requires { self.old.at < length self.old.program.instrs }
        ensures ok { OnOk result (self.new ≡ record self.old { at = self.old.at + 1 }) }
        ensures err { OnErr result (self.new ≡ self.old) }
    {
        self.program.laws();
        let instr = &self.program.instrs()[self.at as usize];
        save(&mut self.log, &self.row, instr.writes())?;
        self.row.execute(instr);
        self.at += 1;
        Ok(())
    }

    /// Takes the last instruction back. Linear in the cells that it writes.
    fn backward(&mut self)
        requires { 0 < self.old.at }
        ensures { self.new ≡ record self.old { at = self.old.at - 1 } }
    {
        self.program.laws();
        self.at -= 1;
        let cells = self.program.instrs()[self.at as usize].writes();
        let kept = self.log.len() - cells.len();
        restore(&mut self.row, cells, &self.log[kept..]);
        self.log.truncate(kept);
    }

    /// Back to a position. Linear in the cells that the instructions on the way write.
    pub(crate) fn back_to(&mut self, k: u32)
        requires { k ≤ self.old.at }
        ensures { self.new ≡ record self.old { at = k } }
    {
        while self.at > k {
            self.backward();
        }
    }

    /// To a position, forward or back. Linear in the cells that the instructions on the way name. Where there is no memory nothing
    /// changes.
    pub(crate) fn go_to(&mut self, k: u32) -> Result<(), NoMemory>
        requires { k ≤ length self.old.program.instrs }
        ensures ok { OnOk result (self.new ≡ record self.old { at = k }) }
        ensures err { OnErr result (self.new ≡ self.old) }
    {
        let before = self.at;
        if k <= before {
            self.back_to(k);
            return Ok(());
        }
        while self.at < k {
            if self.forward().is_err() {
                self.back_to(before);
                return Err(NoMemory);
            }
        }
        Ok(())
    }
}

/// Appends the bits of the cells to the log. Where there is no memory nothing changes.
fn save(log: &mut Vec<bool>, row: &Row, cells: &[u32]) -> Result<(), NoMemory>
    ensures ok { OnOk result (log.new.items ≡ log.old.items ++ map (bit row.now) cells.now) }
    ensures err { OnErr result (log.new.items ≡ log.old.items) }
{
    log.reserve(cells.len())?;
    for cell in cells {
        log.push_reserved(row.bit(*cell));
    }
    Ok(())
}

/// Puts the bits back into the cells, in order.
fn restore(row: &mut Row, cells: &[u32], bits: &[bool])
    ensures { row.new ≡ put cells.now bits.now row.old }
{
    for (cell, bit) in cells.iter().zip(bits) {
        row.write(*cell, *bit);
    }
}
