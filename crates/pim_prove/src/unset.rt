ghost use Rattle.std.specs.Prelude.{◌≡◌, ◌↔◌, IfOk, IsNone};
ghost use Rattle.pim_prove.specs.Clean.{IsClean, unset_of};
ghost use Rattle.pim_prove.specs.Steady.{IsSteady};

use crate::marks::Marks;
use pim_io::NoMemory;
use pim_isa::Program;
use std::alloc::Global;

/// A cell that is used before anything is put there.
#[derive(Clone, Copy, Debug, PartialEq, Eq)]
pub enum Unset {
    /// The instruction uses the cell.
    Used { instr: u32, cell: u32 },

    /// The output of this number is in such a cell at the end.
    Output(u32),
}

/// The first use of a cell that is no input and was not written before: by the least instruction, its operands in order and then
/// its target; else by the least output. None if the program is clean. Linear in the cells and in those that the instructions name.
pub fn first_unset(alloc: Global, program: &Program) -> Result<Option<Unset>, NoMemory>
    ensures first { IfOk result (λ unset. unset ≡ unset_of program.now) }
    ensures clean { IfOk result (λ unset. IsNone unset ↔ IsClean program.now) }

    // What a clean program gives does not depend on what its other cells held before.
    ensures steady { IsClean program.now → IsSteady program.now }
{
    program.laws();
    program.cells();
    find_unset(alloc, program)
}

/// The same, with the cells that are set so far marked.
fn find_unset(alloc: Global, program: &Program) -> Result<Option<Unset>, NoMemory>
    ensures { IfOk result (λ unset. unset ≡ unset_of program.now) }
{
    let outputs = program.outputs();
    let mut marks = Marks::new(alloc, program)?;
    for (place, instr) in program.instrs().iter().enumerate() {
        if let Some(cell) = marks.unset_of(instr) {
            let instr = place as u32;
            return Ok(Some(Unset::Used { instr, cell }));
        }
        marks.write(instr);
    }
    Ok(marks.unset_output(outputs).map(Unset::Output))
}
