ghost use Rattle.std.specs.Prelude.{◌≡◌, ◌*◌, ◌^◌, ◌<◌, ◌≤◌, [], ℕ, true, All, length, map, IfOk, IfErr, OnOk};
ghost use Rattle.pim_aig.specs.Graph.{IsAig, nodes};
ghost use Rattle.pim_aig.specs.Values.{aval};
ghost use Rattle.pim_graph.specs.Allotments.{IsAllotment};
ghost use Rattle.pim_graph.specs.Graphs.{has};
ghost use Rattle.pim_graph.specs.Orders.{IsReached};
ghost use Rattle.pim_graph.specs.Peaks.{IsPlaced};
ghost use Rattle.pim_isa.specs.PortLists.{labels_of};
ghost use Rattle.pim_imply.specs.Costs.{impcost, needed_of};
ghost use Rattle.pim_imply.specs.Gates.{gates, imply_graph};
ghost use Rattle.pim_imply.specs.Realizes.{IRealizes};
ghost use Rattle.pim_imply.specs.inner.Refusals.{IsRefusalFor};
ghost use Rattle.pim_imply.specs.inner.Schedules.{program_of};

use crate::draft::ImplyDraft;
use crate::emit::{add_gates, add_outputs};
use crate::graph::imply_graph;
use crate::program::ImplyProgram;
use crate::refusal::ImplyRefusal;
use pim_aig::Aig;
use pim_graph::{Allotment, allot, order};
use pim_io::NoMemory;
use pim_isa::{MAX_CELLS, Ports};
use std::alloc::Global;

/// What is settled of a schedule before its instructions are written.
#[derive(Drop)]
struct Plan {
    order: Vec<u32>,
    allotment: Allotment,
}

/// Schedules a graph in at most `budget` cells. Input k stands in cell k, and no instruction writes it. It is refused exactly
/// below the cells that are needed: the inputs, and as many as the order of the gates holds values at once. Near linear.
pub(crate) fn imply(
    alloc: Global,
    aig: &Aig,
    ports: &Ports,
    budget: u32,
) -> Result<ImplyProgram, ImplyRefusal>
    requires inputs { length ports.now.inputs ≡ aig.now.inputs }
    requires outputs { length ports.now.outputs ≡ length aig.now.outputs }
    requires within { budget ≤ MAX_CELLS }

    // From every earlier content of the other cells the outputs end with the graph's values, and no input is written.
    ensures realizes { IfOk result (λ program. IRealizes program ports.now.inputs (λ bits. map (λ o. aval aig.now bits o) aig.now.outputs)) }
    ensures labels { IfOk result (λ program. labels_of program.outputs ≡ ports.now.outputs) }
    ensures cells { IfOk result (λ program. program.cells ≤ budget) }
    ensures needed { IfOk result (λ program. program.cells ≡ needed_of aig.now) }
    ensures cycles { IfOk result (λ program. length program.instrs ≡ impcost aig.now) }
    ensures refused { IfErr result (IsRefusalFor (needed_of aig.now) budget) }
{
    aig.has_values();
    let plan = match planned(alloc, aig) {
        Ok(plan) => plan,
        Err(NoMemory) => return Err(ImplyRefusal::NoMemory),
    };
    let needed = plan.allotment.width();
    if budget < needed {
        return Err(ImplyRefusal::TooFewCells { needed });
    }
    match drafted(alloc, aig, ports, &plan) {
        Ok(draft) => match ImplyProgram::new(draft) {
            Ok(program) => Ok(program),
            Err(_) => unreachable!(),
        },
        Err(NoMemory) => Err(ImplyRefusal::NoMemory),
    }
}

/// The order of a graph's gates, and their cells.
fn planned(alloc: Global, aig: &Aig) -> Result<Plan, NoMemory>
    ensures order { IfOk result (λ plan. plan.order.items ≡ gates aig.now) }
    ensures placed { OnOk result (IsPlaced (imply_graph aig.now) (gates aig.now)) }
    ensures reached { OnOk result (All (IsReached (imply_graph aig.now)) (gates aig.now)) }
    ensures complete { OnOk result ((gate : ℕ) → IsReached (imply_graph aig.now) gate → has (gates aig.now) gate ≡ true) }
    ensures small { OnOk result (IsAig aig.now) }
    ensures there { OnOk result (All (λ l. l < 2 * nodes aig.now) (gates aig.now)) }
    ensures few { OnOk result (length (gates aig.now) ≤ 2 * nodes aig.now) }
    ensures allotment { IfOk result (λ plan. IsAllotment (imply_graph aig.now) (gates aig.now) [] aig.now.inputs plan.allotment) }
    ensures width { IfOk result (λ plan. plan.allotment.width ≡ needed_of aig.now) }
{
    let graph = imply_graph(alloc, aig)?;
    graph.has_order();
    let order = order(alloc, &graph)?;
    let allotment = allot(alloc, &graph, &order, aig.inputs(), &[])?;
    Ok(Plan { order, allotment })
}

/// The draft of a planned schedule.
fn drafted(alloc: Global, aig: &Aig, ports: &Ports, plan: &Plan) -> Result<ImplyDraft, NoMemory>
    requires outputs { length ports.now.outputs ≡ length aig.now.outputs }
    requires inputs { length ports.now.inputs ≡ aig.now.inputs }
    requires few { length ports.now.inputs < 2 ^ 32 }
    requires order { plan.now.order.items ≡ gates aig.now }
    requires there { All (λ l. l < 2 * nodes aig.now) plan.now.order.items }
    requires within { plan.now.allotment.width ≤ MAX_CELLS }
    ensures { IfOk result (λ draft. draft ≡ program_of aig.now ports.now plan.now.allotment) }
{
    let cells = plan.allotment.cells();
    let mut draft = ImplyDraft::with_inputs(alloc, plan.allotment.width(), ports.inputs())?;
    add_outputs(&mut draft, aig, cells, ports.outputs())?;
    add_gates(alloc, &mut draft, aig, cells, &plan.order)?;
    Ok(draft)
}
