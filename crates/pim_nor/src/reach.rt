ghost use Rattle.std.specs.Prelude.{◌≡◌, ◌≤◌, ◌<◌, false, replicate, IfOk, vec_len};
ghost use Rattle.pim_aig.specs.Graph.{IsAig};
ghost use Rattle.pim_nor.specs.Leaves.{leaves};
ghost use Rattle.pim_nor.specs.Lowered.{marks_of, roots};
ghost use Rattle.pim_nor.specs.Named.{gate_at, slots};
ghost use Rattle.pim_nor.specs.Network.{pins, AreInputsOrFirst, IsInputOrFirst};
ghost use Rattle.pim_nor.specs.Reached.{mark, mark_all};

use crate::plan::Plan;
use crate::slots::source;
use crate::{Gate, Pin};
use pim_io::NoMemory;
use std::alloc::Global;

/// Marks the gate of a pin. An input has no gate.
fn mark(marks: &mut Vec<bool>, pin: Pin)
    requires { IsInputOrFirst (vec_len marks.old) pin }
    ensures marked { marks.new.items ≡ mark marks.old.items pin }
    ensures len { vec_len marks.new ≡ vec_len marks.old }
{
    if let Pin::Gate(slot) = pin {
        marks[slot as usize] = true;
    }
}

/// Marks the gates that a gate reads.
#[inline(always)]
fn mark_read(marks: &mut Vec<bool>, gate: Gate)
    requires { AreInputsOrFirst (vec_len marks.old) (pins gate) }
    ensures marked { marks.new.items ≡ mark_all marks.old.items (pins gate) }
    ensures len { vec_len marks.new ≡ vec_len marks.old }
{
    match gate {
        Gate::One => {}
        Gate::Not(a) => mark(marks, a),
        Gate::Nor(a, b) => {
            mark(marks, a);
            mark(marks, b);
        }
        Gate::Nor3(a, b, c) => {
            mark(marks, a);
            mark(marks, b);
            mark(marks, c);
        }
        Gate::Nor4(a, b, c, d) => {
            mark(marks, a);
            mark(marks, b);
            mark(marks, c);
            mark(marks, d);
        }
    }
}

/// Marks the gates that outputs read.
fn marked_roots(alloc: Global, plan: &Plan) -> Result<Vec<bool>, NoMemory>
    ensures marks { IfOk result (λ marks. marks.items
        ≡ mark_all (replicate (slots plan.now.graph) false) (roots plan.now.graph)) }
    ensures len { IfOk result (λ marks. vec_len marks ≡ slots plan.now.graph) }
{
    let aig = plan.aig();
    let inputs = aig.inputs();
    let mut marks = vec![in alloc; false; plan.slots() as usize]?;
    for out in aig.outputs() {
        mark(&mut marks, source(inputs, *out));
    }
    Ok(marks)
}

/// Which slots' gates the outputs reach. Linear in the nodes of the graph: each gate stands after those that it reads,
/// so one pass from the last slot down marks all.
pub(crate) fn reached(alloc: Global, plan: &Plan) -> Result<Vec<bool>, NoMemory>
    ensures marks { IfOk result
        (λ marks. marks.items ≡ marks_of plan.now.graph (leaves plan.now.graph plan.now.width)) }
    ensures len { IfOk result (λ marks. vec_len marks ≡ slots plan.now.graph) }
{
    let mut marks = marked_roots(alloc, plan)?;
    for slot in (0..plan.slots()).rev() {
        if marks[slot as usize] {
            mark_read(&mut marks, plan.gate_at(slot));
        }
    }
    Ok(marks)
}
