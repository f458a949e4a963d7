ghost use Rattle.std.specs.Prelude.{◌≡◌, ◌*◌, ◌^◌, ◌<◌, ◌≤◌, ℕ, true, All, length, map, IfOk, IfErr, OnOk};
ghost use Rattle.pim_aig.specs.Graph.{nodes};
ghost use Rattle.pim_aig.specs.Values.{aval};
ghost use Rattle.pim_graph.specs.Graphs.{has};
ghost use Rattle.pim_graph.specs.Orders.{IsReached};
ghost use Rattle.pim_graph.specs.Peaks.{IsPlaced};
ghost use Rattle.pim_isa.specs.PortLists.{labels_of};
ghost use Rattle.pim_isa.specs.Primed.{IsPrimed};
ghost use Rattle.pim_isa.specs.Realizes.{Realizes};
ghost use Rattle.pim_isa.specs.declared.target.Target.TheVariants as target_is;
ghost use Rattle.pim_rm3.specs.Costs.{cells_of, coarse_of, needed_of, rm3_cost};
ghost use Rattle.pim_rm3.specs.Gates.{gate_graph, gates, taken};
ghost use Rattle.pim_rm3.specs.Refusals.{AsksAtMost, IsRefusalFor, IsTooWideFor};
ghost use Rattle.pim_rm3.specs.Schedules.{program_of};
ghost use Rattle.pim_rm3.specs.inner.Settled.{IsSettled};

use crate::Refusal;
use crate::emit::add_gates;
use crate::gate_graph::gate_graph;
use crate::over::all_taken;
use crate::ports::add_outputs;
use pim_aig::Aig;
use pim_graph::{Allotment, Graph, allot, order, peak};
use pim_io::NoMemory;
use pim_isa::{MAX_CELLS, Ports, Program, ProgramDraft, Target};
use std::alloc::Global;

/// What is settled of a schedule before its instructions are written.
#[derive(Drop)]
struct Plan {
    order: Vec<u32>,
    over: Vec<Option<u32>>,
    allotment: Allotment,
    needed: u32,
}

/// Schedules a graph in at most `budget` cells. Input k stands in cell k, and no instruction writes it.
///
/// `TooFewCells` comes only where the schedule takes more cells than the budget has. It names `needed`, which is the inputs and as
/// many cells as the order of the gates holds values at once, and never less than what the schedule takes. Near linear in the graph.
pub fn base(alloc: Global, aig: &Aig, ports: &Ports, budget: u32) -> Result<Program, Refusal>
    requires inputs { length ports.now.inputs ≡ aig.now.inputs }
    requires outputs { length ports.now.outputs ≡ length aig.now.outputs }
    requires within { budget ≤ MAX_CELLS }

    // From every earlier content of the other cells the outputs end with the graph's values, and no input is written.
    ensures realizes { IfOk result (λ program. Realizes program ports.now.inputs (λ bits. map (aval aig.now bits) aig.now.outputs)) }
    ensures target { IfOk result (λ program. program.target ≡ target_is.Plim) }
    ensures labels { IfOk result (λ program. labels_of program.outputs ≡ ports.now.outputs) }
    ensures cells { IfOk result (λ program. program.cells ≤ budget) }
    ensures width { IfOk result (λ program. program.cells ≡ cells_of aig.now) }
    ensures needed { IfOk result (λ program. program.cells ≤ needed_of aig.now) }
    ensures cycles { IfOk result (λ program. length program.instrs ≡ rm3_cost aig.now) }
    ensures primed { IfOk result (λ program. IsPrimed program.instrs) }
    ensures refused { IfErr result (IsRefusalFor (needed_of aig.now) budget) }
    ensures unfit { IfErr result (IsTooWideFor (cells_of aig.now) budget) }
    ensures most { IfErr result (AsksAtMost (coarse_of aig.now)) }
{
    let plan = planned(alloc, aig)?;
    if budget < plan.allotment.width() {
        return Err(Refusal::TooFewCells {
            needed: plan.needed,
        });
    }
    let draft = drafted(alloc, aig, ports, &plan)?;
    match Program::new(draft) {
        Ok(program) => {
            program.laws();
            Ok(program)
        }
        Err(_) => unreachable!(),
    }
}

/// The order of a graph's gates, what they take over, and their cells.
fn planned(alloc: Global, aig: &Aig) -> Result<Plan, NoMemory>
    ensures order { IfOk result (λ plan. plan.order.items ≡ gates aig.now) }
    ensures settled { IfOk result (λ plan. IsSettled aig.now plan.allotment) }
    ensures complete { OnOk result ((gate : ℕ) → IsReached (gate_graph aig.now) gate → has (gates aig.now) gate ≡ true) }
    ensures few { OnOk result (length (gates aig.now) ≤ 2 * nodes aig.now) }
    ensures over { IfOk result (λ plan. plan.over.items ≡ map (taken aig.now) (gates aig.now)) }
    ensures cells { IfOk result (λ plan. plan.allotment.width ≡ cells_of aig.now) }
    ensures needed { IfOk result (λ plan. plan.needed ≡ needed_of aig.now) }
    ensures most { IfOk result (λ plan. plan.needed ≤ coarse_of aig.now) }
    ensures width { IfOk result (λ plan. plan.allotment.width ≤ needed_of aig.now) }
{
    aig.has_values();
    let graph = gate_graph(alloc, aig)?;
    graph.has_order();
    let order = order(alloc, &graph)?;
    let over = all_taken(alloc, aig, &graph, &order)?;
    let allotment = allot(alloc, &graph, &order, aig.inputs(), &over)?;
    let needed = needed_along(alloc, aig, &graph, &order)?;
    Ok(Plan {
        order,
        over,
        allotment,
        needed,
    })
}

/// The cells of the inputs, and as many as an order of the gates holds at once.
fn needed_along(alloc: Global, aig: &Aig, graph: &Graph, order: &[u32]) -> Result<u32, NoMemory>
    requires graph { graph.now ≡ gate_graph aig.now }
    requires order { order.now ≡ gates aig.now }
    requires placed { IsPlaced graph.now order.now }
    requires reached { All (IsReached graph.now) order.now }
    ensures needed { IfOk result (λ cells. cells ≡ needed_of aig.now) }
    ensures most { IfOk result (λ cells. cells ≤ coarse_of aig.now) }
{
    graph.has_order();
    let held = peak(alloc, graph, order)?;
    Ok(aig.inputs() + held)
}

/// How many cells are surely enough for a graph: `base` refuses only budgets below it. Near linear in the graph.
pub fn needed(alloc: Global, aig: &Aig) -> Result<u32, NoMemory>
    ensures needed { IfOk result (λ cells. cells ≡ needed_of aig.now) }
    ensures most { IfOk result (λ cells. cells ≤ coarse_of aig.now) }
{
    let graph = gate_graph(alloc, aig)?;
    let order = order(alloc, &graph)?;
    needed_along(alloc, aig, &graph, &order)
}

/// The draft of a planned schedule.
fn drafted(alloc: Global, aig: &Aig, ports: &Ports, plan: &Plan) -> Result<ProgramDraft, NoMemory>
    requires outputs { length ports.now.outputs ≡ length aig.now.outputs }
    requires inputs { length ports.now.inputs ≡ aig.now.inputs }
    requires few { length ports.now.inputs < 2 ^ 32 }
    requires order { plan.now.order.items ≡ gates aig.now }
    requires there { All (λ l. l < 2 * nodes aig.now) plan.now.order.items }
    requires over { plan.now.over.items ≡ map (taken aig.now) (gates aig.now) }
    requires len { length plan.now.allotment.cells ≡ length (gate_graph aig.now).kids }
    requires within { plan.now.allotment.width ≤ MAX_CELLS }
    ensures { IfOk result (λ draft. draft ≡ program_of aig.now ports.now plan.now.allotment) }
{
    let cells = plan.allotment.cells();
    let mut draft = ProgramDraft::new(alloc, Target::Plim, plan.allotment.width());
    draft.add_inputs(ports.inputs())?;
    add_outputs(
        &mut draft,
        aig.inputs(),
        cells,
        aig.outputs(),
        ports.outputs(),
    )?;
    add_gates(&mut draft, aig, cells, &plan.over, &plan.order)?;
    Ok(draft)
}
