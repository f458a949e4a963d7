ghost use Rattle.std.specs.Prelude.{◌≡◌, ◌*◌, ◌<◌, ◌++◌, All, length, map, slice_index, OnOk};
ghost use Rattle.pim_aig.specs.Graph.{nodes};
ghost use Rattle.pim_rm3.specs.Gates.{gate_of, gates, taken};
ghost use Rattle.pim_rm3.specs.declared.gate.Gate.TheVariants as gate_is;
ghost use Rattle.pim_rm3.specs.Schedules.{cell_of, gate_instrs, is_inverted, narrow, narrow_by, operand_of, schedule, set_to, settled};

use crate::gate::{Gate, gate_of};
use crate::loads::{add_load, cell_of, is_inverted, operand_of, rm3, set_to};
use pim_aig::{Aig, Lit};
use pim_io::NoMemory;
use pim_isa::{Instr, Operand, ProgramDraft};

/// A literal on its own cell is a constant: what the cell holds stays where it is plain, and becomes false where it is not.
fn settled(aig: &Aig, cells: &[u32], z: u32, literal: Lit) -> Lit
    requires cells { length cells.now ≡ 2 * nodes aig.now }
    requires there { literal.0 < 2 * nodes aig.now }
    ensures { result ≡ settled aig.now.inputs cells.now z literal }
{
    if 0 < literal.0 / 2 && cell_of(aig.inputs(), cells, literal) == z {
        if literal.0 % 2 == 1 {
            Lit::FALSE
        } else {
            Lit::TRUE
        }
    } else {
        literal
    }
}

/// The instruction that makes a cell the AND of what it holds and a literal that lies elsewhere.
fn narrow_by(aig: &Aig, cells: &[u32], z: u32, literal: Lit) -> Instr
    requires cells { length cells.now ≡ 2 * nodes aig.now }
    requires there { literal.0 < 2 * nodes aig.now }
    ensures { result ≡ narrow_by aig.now.inputs cells.now z literal }
{
    if is_inverted(literal) {
        let q = Operand::Cell(cell_of(aig.inputs(), cells, literal));
        return rm3(Operand::Zero, q, z);
    }
    rm3(operand_of(aig.inputs(), cells, literal), Operand::One, z)
}

/// The instruction that makes a cell the AND of what it holds and a literal.
fn narrow(aig: &Aig, cells: &[u32], z: u32, literal: Lit) -> Instr
    requires cells { length cells.now ≡ 2 * nodes aig.now }
    requires there { literal.0 < 2 * nodes aig.now }
    ensures { result ≡ narrow aig.now.inputs cells.now z literal }
{
    narrow_by(aig, cells, z, settled(aig, cells, z, literal))
}

/// Adds the instructions of the AND of two literals: on the cell of the one that is taken over, else on a cell of its own.
fn add_and(
    draft: &mut ProgramDraft,
    aig: &Aig,
    cells: &[u32],
    z: u32,
    over: Option<u32>,
    x: Lit,
    y: Lit,
) -> Result<(), NoMemory>
    requires cells { length cells.now ≡ 2 * nodes aig.now }
    requires x_there { x.0 < 2 * nodes aig.now }
    requires y_there { y.0 < 2 * nodes aig.now }
    ensures { OnOk result (draft.new ≡ record draft.old {
      instrs = draft.old.instrs ++ gate_instrs aig.now cells.now z over 0 (gate_is.And x y);
    }) }
{
    match over {
        Some(taken) if taken == x.0 => draft.add(narrow(aig, cells, z, y)),
        Some(_) => draft.add(narrow(aig, cells, z, x)),
        None => {
            add_load(draft, aig.inputs(), cells, z, x)?;
            draft.add(narrow(aig, cells, z, y))
        }
    }
}

/// Adds the instructions of a gate, which takes this one's cell over, if it takes one over.
fn add_gate(
    draft: &mut ProgramDraft,
    aig: &Aig,
    cells: &[u32],
    over: Option<u32>,
    literal: u32,
) -> Result<(), NoMemory>
    requires cells { length cells.now ≡ 2 * nodes aig.now }
    requires there { literal < 2 * nodes aig.now }
    ensures { OnOk result (draft.new ≡ record draft.old {
      instrs = draft.old.instrs ++ gate_instrs aig.now cells.now (slice_index cells.now literal) over literal (gate_of aig.now literal);
    }) }
{
    let z = cells[literal as usize];
    match gate_of(aig, literal) {
        Gate::Constant(bit) => draft.add(set_to(bit, z)),
        Gate::Input => Ok(()),
        Gate::Not(_) => add_load(draft, aig.inputs(), cells, z, Lit(literal)),
        Gate::And(x, y) => add_and(draft, aig, cells, z, over, x, y),
    }
}

/// Adds the instructions of all gates in their order.
pub(crate) fn add_gates(
    draft: &mut ProgramDraft,
    aig: &Aig,
    cells: &[u32],
    over: &[Option<u32>],
    order: &[u32],
) -> Result<(), NoMemory>
    requires cells { length cells.now ≡ 2 * nodes aig.now }
    requires order { order.now ≡ gates aig.now }
    requires there { All (λ l. l < 2 * nodes aig.now) order.now }
    requires over { over.now ≡ map (taken aig.now) (gates aig.now) }
    ensures { OnOk result (draft.new ≡ record draft.old { instrs = draft.old.instrs ++ schedule aig.now cells.now }) }
{
    for (place, gate) in order.iter().enumerate() {
        add_gate(draft, aig, cells, over[place], *gate)?;
    }
    Ok(())
}
