ghost use Rattle.std.specs.Prelude.{◌≡◌, ◌*◌, ◌<◌, ◌++◌, All, length, map, slice_index, OnOk};
ghost use Rattle.pim_aig.specs.Graph.{nodes};
ghost use Rattle.pim_imply.specs.Gates.{gates};
ghost use Rattle.pim_imply.specs.inner.Schedules.{cell_of, gate_instrs, output_ports, schedule};
ghost use Rattle.pim_imply.specs.declared.instr.ImplyInstr.TheVariants.{Imp};

use crate::draft::ImplyDraft;
use crate::graph::{is_input, put_operands, turned};
use crate::instr::ImplyInstr;
use pim_aig::Aig;
use pim_io::{Name, NoMemory};
use std::alloc::Global;

/// The cell of a gate, and 0 where it has none.
fn cell_at(cells: &[u32], gate: u32) -> u32
    ensures { result ≡ slice_index cells.now gate }
{
    cells.get(gate as usize).copied().unwrap_or(0)
}

/// The cell that holds a literal, where the gates have these cells.
fn cell_of(aig: &Aig, cells: &[u32], literal: u32) -> u32
    ensures { result ≡ cell_of aig.now cells.now literal }
{
    if is_input(aig, literal) {
        literal / 2 - 1
    } else {
        cell_at(cells, turned(literal))
    }
}

/// Adds an `imp` onto the cell z for each of the literals.
fn add_imps(
    draft: &mut ImplyDraft,
    aig: &Aig,
    cells: &[u32],
    z: u32,
    literals: &[u32],
) -> Result<(), NoMemory>
    ensures { OnOk result (draft.new ≡ record draft.old {
      instrs = draft.old.instrs ++ map (λ c. Imp c z) (map (cell_of aig.now cells.now) literals.now);
    }) }
{
    for literal in literals {
        let p = cell_of(aig, cells, *literal);
        draft.add(ImplyInstr::Imp { p, q: z })?;
    }
    Ok(())
}

/// Adds the instructions of a gate. The list is room for the literals that it reads.
fn add_gate(
    operands: &mut Vec<u32>,
    draft: &mut ImplyDraft,
    aig: &Aig,
    cells: &[u32],
    gate: u32,
) -> Result<(), NoMemory>
    requires { gate < 2 * nodes aig.now }
    ensures { OnOk result (draft.new ≡ record draft.old { instrs = draft.old.instrs ++ gate_instrs aig.now cells.now gate }) }
{
    put_operands(operands, aig, turned(gate))?;
    let z = cell_at(cells, gate);
    draft.add(ImplyInstr::False(z))?;
    add_imps(draft, aig, cells, z, operands)
}

/// Adds the instructions of all gates in their order.
pub(crate) fn add_gates(
    alloc: Global,
    draft: &mut ImplyDraft,
    aig: &Aig,
    cells: &[u32],
    order: &[u32],
) -> Result<(), NoMemory>
    requires order { order.now ≡ gates aig.now }
    requires there { All (λ l. l < 2 * nodes aig.now) order.now }
    ensures { OnOk result (draft.new ≡ record draft.old { instrs = draft.old.instrs ++ schedule aig.now cells.now }) }
{
    let mut operands = Vec::new(alloc);
    for gate in order {
        add_gate(&mut operands, draft, aig, cells, *gate)?;
    }
    Ok(())
}

/// Adds the output ports, each in the cell where its output lies.
pub(crate) fn add_outputs(
    draft: &mut ImplyDraft,
    aig: &Aig,
    cells: &[u32],
    labels: &[Name],
) -> Result<(), NoMemory>
    requires { length aig.now.outputs ≡ length labels.now }
    ensures { OnOk result (draft.new ≡ record draft.old {
      outputs = draft.old.outputs ++ output_ports aig.now cells.now aig.now.outputs labels.now;
    }) }
{
    let outputs = aig.outputs();
    for (k, output) in outputs.iter().enumerate() {
        draft.add_output(cell_of(aig, cells, output.0), labels[k].bytes())?;
    }
    Ok(())
}
