ghost use Rattle.std.specs.Prelude.{◌≡◌, ◌+◌, ◌*◌, ◌<◌, ◌≤◌, ℕ, true, Bool, All, drop, length, map, slice_index, IfOk, IfErr, OnOk};
ghost use Rattle.std.specs.List.{range_with_len};
ghost use Rattle.pim_graph.specs.Allotments.{IsAllotment, IsOver};
ghost use Rattle.pim_graph.specs.Graphs.{has};
ghost use Rattle.pim_graph.specs.Orders.{IsReached};
ghost use Rattle.pim_graph.specs.Peaks.{IsPlaced, needed};
ghost use Rattle.pim_isa.specs.PortLists.{labels_of};
ghost use Rattle.pim_isa.specs.Primed.{IsPrimed};
ghost use Rattle.pim_isa.specs.Realizes.{Realizes};
ghost use Rattle.pim_isa.specs.declared.target.Target.TheVariants as target_is;
ghost use Rattle.pim_mig.specs.Graph.{IsMig, size};
ghost use Rattle.pim_mig.specs.Values.{mval};
ghost use Rattle.pim_mig.specs.declared.node.Maj.{Maj};
ghost use Rattle.pim_rm3.specs.Refusals.{IsUnfitFor, TellsCells};
ghost use Rattle.pim_rm3.specs.Roles.{least_role, role_cost, roles};
ghost use Rattle.pim_rm3.specs.SmartSchedules.{smart_program};
ghost use Rattle.pim_rm3.specs.Steps.{enough_of, mig_gates, mig_graph, smart_cost, step_of};
ghost use Rattle.pim_rm3.specs.Temporaries.{full_graph, full_order, full_over, smart_cells};

use crate::SmartFault;
use crate::mig_graph::{literals, mig_graph};
use crate::ports::add_outputs;
use crate::step::{Step, steps};
use crate::temporaries::{full_graph, full_order, full_over};
use crate::votes::{add_votes, gate_cells};
use pim_graph::{Allotment, Graph, allot, order};
use pim_io::NoMemory;
use pim_isa::{MAX_CELLS, Ports, Program, ProgramDraft, Target};
use pim_mig::Mig;
use std::alloc::Global;

/// What is settled of a schedule before its instructions are written.
#[derive(Drop)]
struct Plan {
    order: Vec<u32>,
    steps: Vec<Step>,
    allotment: Allotment,
}

/// Schedules a majority graph in at most `budget` cells. Input k stands in cell k, and no instruction writes it. The operands of each
/// node have the roles that cost least: a complement may be the second operand as it is, and a node that is read once may lend its
/// cell.
///
/// `Unfit` comes only where the schedule's cells are above the budget, and tells them. They are never more than `enough_of`. Near linear
/// in the graph.
pub fn smart(alloc: Global, mig: &Mig, ports: &Ports, budget: u32) -> Result<Program, SmartFault>
    requires inputs { length ports.now.inputs ≡ mig.now.inputs }
    requires outputs { length ports.now.outputs ≡ length mig.now.outputs }
    requires within { budget ≤ MAX_CELLS }

    // From every earlier content of the other cells the outputs end with the graph's values, and no input is written.
    ensures realizes { IfOk result (λ program. Realizes program ports.now.inputs (λ bits. map (mval mig.now bits) mig.now.outputs)) }
    ensures target { IfOk result (λ program. program.target ≡ target_is.Plim) }
    ensures labels { IfOk result (λ program. labels_of program.outputs ≡ ports.now.outputs) }
    ensures cells { IfOk result (λ program. program.cells ≤ budget) }
    ensures width { IfOk result (λ program. program.cells ≡ smart_cells mig.now) }
    ensures enough { IfOk result (λ program. program.cells ≤ enough_of mig.now) }
    ensures cycles { IfOk result (λ program. length program.instrs ≡ smart_cost mig.now) }
    ensures primed { IfOk result (λ program. IsPrimed program.instrs) }

    // The roles of a node are those of all six that cost least.
    ensures least { OnOk result ((m : Maj) (x y z : Bool) → All (λ r. role_cost (least_role m x y z) ≤ role_cost r) (roles m x y z)) }
    ensures unfit { IfErr result (IsUnfitFor (enough_of mig.now) budget) }
    ensures told { IfErr result (TellsCells (smart_cells mig.now)) }
{
    mig.has_values();
    let plan = planned(alloc, mig)?;
    let cells = plan.allotment.width();
    if budget < cells {
        return Err(SmartFault::Unfit { cells, budget });
    }
    let draft = drafted(alloc, mig, ports, &plan)?;
    match Program::new(draft) {
        Ok(program) => {
            program.laws();
            Ok(program)
        }
        Err(_) => unreachable!(),
    }
}

/// The order of a graph's gates, how they are computed, and their cells.
fn planned(alloc: Global, mig: &Mig) -> Result<Plan, NoMemory>
    ensures order { IfOk result (λ plan. plan.order.items ≡ mig_gates mig.now) }
    ensures complete { OnOk result ((gate : ℕ) → IsReached (mig_graph mig.now) gate → has (mig_gates mig.now) gate ≡ true) }
    ensures placed { OnOk result (IsPlaced (mig_graph mig.now) (mig_gates mig.now)) }
    ensures needed { OnOk result ((p : ℕ) → p < length (mig_gates mig.now) →
        needed (mig_graph mig.now) (drop (p + 1) (mig_gates mig.now)) (slice_index (mig_gates mig.now) p) ≡ true) }
    ensures reached { OnOk result (All (IsReached (mig_graph mig.now)) (mig_gates mig.now)) }
    ensures there { OnOk result (All (λ l. l < 2 * size mig.now) (mig_gates mig.now)) }
    ensures few { OnOk result (length (mig_gates mig.now) ≤ 2 * size mig.now) }
    ensures small { OnOk result (IsMig mig.now) }
    ensures steps { IfOk result (λ plan. plan.steps.items ≡ map (step_of mig.now) (range_with_len 0 (2 * size mig.now))) }
    ensures full { OnOk result (IsPlaced (full_graph mig.now) (full_order mig.now)) }
    ensures sound { OnOk result (IsOver (full_graph mig.now) (full_order mig.now) (full_over mig.now)) }
    ensures allotment { IfOk result (λ plan. IsAllotment (full_graph mig.now) (full_order mig.now) (full_over mig.now) mig.now.inputs plan.allotment) }
    ensures cells { IfOk result (λ plan. plan.allotment.width ≡ smart_cells mig.now) }
    ensures width { IfOk result (λ plan. plan.allotment.width ≤ enough_of mig.now) }
{
    let graph = mig_graph(alloc, mig)?;
    graph.has_order();
    let order = order(alloc, &graph)?;
    let steps = steps(alloc, mig, &graph, &order)?;
    let allotment = allotted(alloc, mig, &graph, &order, &steps)?;
    let _inputs = mig.inputs();
    Ok(Plan {
        order,
        steps,
        allotment,
    })
}

/// Cells for the gates of an order and their temporaries.
fn allotted(
    alloc: Global,
    mig: &Mig,
    graph: &Graph,
    order: &[u32],
    steps: &[Step],
) -> Result<Allotment, NoMemory>
    requires graph { graph.now ≡ mig_graph mig.now }
    requires order { order.now ≡ mig_gates mig.now }
    requires steps { steps.now ≡ map (step_of mig.now) (range_with_len 0 (2 * size mig.now)) }
    requires placed { IsPlaced (mig_graph mig.now) (mig_gates mig.now) }
    requires needed { (p : ℕ) → p < length (mig_gates mig.now) →
        needed (mig_graph mig.now) (drop (p + 1) (mig_gates mig.now)) (slice_index (mig_gates mig.now) p) ≡ true }
    ensures needed { OnOk result ((p : ℕ) → p < length (mig_gates mig.now) →
        needed (mig_graph mig.now) (drop (p + 1) (mig_gates mig.now)) (slice_index (mig_gates mig.now) p) ≡ true) }
    ensures full { OnOk result (IsPlaced (full_graph mig.now) (full_order mig.now)) }
    ensures sound { OnOk result (IsOver (full_graph mig.now) (full_order mig.now) (full_over mig.now)) }
    ensures allotment { IfOk result (λ a. IsAllotment (full_graph mig.now) (full_order mig.now) (full_over mig.now) mig.now.inputs a) }
    ensures cells { IfOk result (λ a. a.width ≡ smart_cells mig.now) }
    ensures width { IfOk result (λ a. a.width ≤ enough_of mig.now) }
{
    graph.has_order();
    let full = full_graph(alloc, mig, graph, steps)?;
    let gates = full_order(alloc, mig, steps, order)?;
    let over = full_over(alloc, mig, steps, order)?;
    let allotment = allot(alloc, &full, &gates, mig.inputs(), &over)?;
    Ok(allotment)
}

/// The draft of a planned schedule.
fn drafted(alloc: Global, mig: &Mig, ports: &Ports, plan: &Plan) -> Result<ProgramDraft, NoMemory>
    requires outputs { length ports.now.outputs ≡ length mig.now.outputs }
    requires inputs { length ports.now.inputs ≡ mig.now.inputs }
    requires order { plan.now.order.items ≡ mig_gates mig.now }
    requires there { All (λ l. l < 2 * size mig.now) (mig_gates mig.now) }
    requires steps { plan.now.steps.items ≡ map (step_of mig.now) (range_with_len 0 (2 * size mig.now)) }
    requires len { length plan.now.allotment.cells ≡ length (full_graph mig.now).kids }
    requires within { plan.now.allotment.width ≤ MAX_CELLS }
    ensures { IfOk result (λ draft. draft ≡ smart_program mig.now ports.now plan.now.allotment) }
{
    let held = plan.allotment.cells();
    let cells = gate_cells(alloc, literals(mig), held)?;
    let mut draft = ProgramDraft::new(alloc, Target::Plim, plan.allotment.width());
    draft.add_inputs(ports.inputs())?;
    add_outputs(
        &mut draft,
        mig.inputs(),
        &cells,
        mig.outputs(),
        ports.outputs(),
    )?;
    add_votes(&mut draft, mig, &cells, held, &plan.steps, &plan.order)?;
    Ok(draft)
}
