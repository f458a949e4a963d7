ghost use Rattle.std.specs.Prelude.{◌≡◌, ◌+◌, ◌*◌, ◌^◌, ◌<◌, ◌++◌, All, length, map, MatchOption, vec_len, IfOk, OnOk};
ghost use Rattle.std.specs.List.{range_with_len};
ghost use Rattle.pim_mig.specs.Graph.{size};
ghost use Rattle.pim_rm3.specs.SmartSchedules.{first_operand, gate_cells, second_operand, smart_instrs, smart_schedule, step_instrs, temporary_instrs, third_instrs};
ghost use Rattle.pim_rm3.specs.Steps.{mig_gates, step_of};
ghost use Rattle.pim_rm3.specs.inner.Operands.{StepsBelow};

use crate::loads::{add_load, cell_of, is_inverted, operand_of, rm3, set_to};
use crate::role::{Role, is_plain};
use crate::step::{Step, step_at};
use crate::temporaries::temporary_of;
use pim_aig::Lit;
use pim_io::NoMemory;
use pim_isa::{Operand, ProgramDraft};
use pim_mig::Mig;
use std::alloc::Global;

/// The cells of the literals' gates, of those of the gates and their temporaries.
pub(crate) fn gate_cells(alloc: Global, count: u32, held: &[u32]) -> Result<Vec<u32>, NoMemory>
    requires few { count < 2 ^ 24 }
    requires len { length held.now ≡ 2 * count }
    ensures list { IfOk result (λ cells. cells.items ≡ gate_cells count held.now) }
    ensures len { IfOk result (λ cells. vec_len cells ≡ count) }
{
    let mut cells = Vec::new(alloc);
    for literal in 0..count {
        cells.push(held[2 * literal as usize + 1])?;
    }
    Ok(cells)
}

/// Adds the instructions that make the temporary's cell the complement of a literal's node.
fn add_temporary(
    draft: &mut ProgramDraft,
    inputs: u32,
    cells: &[u32],
    t: u32,
    wanted: Option<Lit>,
) -> Result<(), NoMemory>
    requires there { MatchOption wanted (Unit {0}) (λ e. e.0 + 1 < length cells.now) }
    requires few { length cells.now < 2 ^ 24 }
    ensures { OnOk result (draft.new ≡ record draft.old { instrs = draft.old.instrs ++ temporary_instrs inputs cells.now t wanted }) }
{
    match wanted {
        Some(literal) => add_load(draft, inputs, cells, t, Lit(2 * (literal.0 / 2) + 1)),
        None => Ok(()),
    }
}

/// The first operand: the temporary where the literal is complemented.
fn first_operand(inputs: u32, cells: &[u32], t: u32, literal: Lit) -> Operand
    requires { literal.0 < length cells.now }
    ensures { result ≡ first_operand inputs cells.now t literal }
{
    if is_inverted(literal) {
        Operand::Cell(t)
    } else {
        operand_of(inputs, cells, literal)
    }
}

/// The second operand, which the instruction complements.
fn second_operand(inputs: u32, cells: &[u32], t: u32, literal: Lit) -> Operand
    requires { literal.0 < length cells.now }
    ensures { result ≡ second_operand inputs cells.now t literal }
{
    if literal.0 == 0 {
        Operand::One
    } else if literal.0 == 1 {
        Operand::Zero
    } else if is_plain(literal) {
        Operand::Cell(t)
    } else {
        Operand::Cell(cell_of(inputs, cells, literal))
    }
}

/// Adds the instructions that make the target the third operand, unless it takes that one's cell over.
fn add_third(
    draft: &mut ProgramDraft,
    inputs: u32,
    cells: &[u32],
    z: u32,
    role: Role,
) -> Result<(), NoMemory>
    requires { role.z.0 < length cells.now }
    ensures { OnOk result (draft.new ≡ record draft.old { instrs = draft.old.instrs ++ third_instrs inputs cells.now z role }) }
{
    if role.z.0 / 2 == 0 {
        draft.add(set_to(role.z.0 == 1, z))
    } else if role.over {
        Ok(())
    } else {
        add_load(draft, inputs, cells, z, role.z)
    }
}

/// Adds the instructions of a step on its cell, with its temporary in this one.
fn add_step(
    draft: &mut ProgramDraft,
    inputs: u32,
    cells: &[u32],
    t: u32,
    z: u32,
    step: Step,
    literal: u32,
) -> Result<(), NoMemory>
    requires there { literal < length cells.now }
    requires below { StepsBelow literal step }
    ensures { OnOk result (draft.new ≡ record draft.old { instrs = draft.old.instrs ++ step_instrs inputs cells.now t z step }) }
{
    match step {
        Step::Constant(bit) => draft.add(set_to(bit, z)),
        Step::Input => Ok(()),
        Step::Complement(e) => add_load(draft, inputs, cells, z, e),
        Step::Vote(role) => {
            add_third(draft, inputs, cells, z, role)?;
            let p = first_operand(inputs, cells, t, role.p);
            let q = second_operand(inputs, cells, t, role.q);
            draft.add(rm3(p, q, z))
        }
    }
}

/// Adds the instructions of the gate of a literal, and of its temporary before it.
fn add_gate(
    draft: &mut ProgramDraft,
    mig: &Mig,
    cells: &[u32],
    held: &[u32],
    step: Step,
    literal: u32,
) -> Result<(), NoMemory>
    requires cells { cells.now ≡ gate_cells (2 * size mig.now) held.now }
    requires held { length held.now ≡ 2 * (2 * size mig.now) }
    requires there { literal < 2 * size mig.now }
    requires step { step ≡ step_of mig.now literal }
    requires below { StepsBelow literal step }
    ensures { OnOk result (draft.new ≡ record draft.old { instrs = draft.old.instrs ++ smart_instrs mig.now held.now literal }) }
{
    let inputs = mig.inputs();
    let t = held[2 * literal as usize];
    let z = held[2 * literal as usize + 1];
    add_temporary(draft, inputs, cells, t, temporary_of(step))?;
    add_step(draft, inputs, cells, t, z, step, literal)
}

/// Adds the instructions of all gates in their order.
pub(crate) fn add_votes(
    draft: &mut ProgramDraft,
    mig: &Mig,
    cells: &[u32],
    held: &[u32],
    steps: &[Step],
    order: &[u32],
) -> Result<(), NoMemory>
    requires cells { cells.now ≡ gate_cells (2 * size mig.now) held.now }
    requires held { length held.now ≡ 2 * (2 * size mig.now) }
    requires order { order.now ≡ mig_gates mig.now }
    requires there { All (λ l. l < 2 * size mig.now) order.now }
    requires steps { steps.now ≡ map (step_of mig.now) (range_with_len 0 (2 * size mig.now)) }
    ensures { OnOk result (draft.new ≡ record draft.old { instrs = draft.old.instrs ++ smart_schedule mig.now held.now }) }
{
    for literal in order {
        let step = step_at(mig, steps, *literal);
        add_gate(draft, mig, cells, held, step, *literal)?;
    }
    Ok(())
}
