ghost use Rattle.std.specs.Prelude.{◌≡◌, ◌+◌, ◌-◌, ◌≤◌, min, count_by, length, IfOk, IfErr, OnOk};
ghost use Rattle.pim_isa.specs.PortLists.{labels_of};
ghost use Rattle.pim_isa.specs.Primed.{IsPrimed, is_init};
ghost use Rattle.pim_isa.specs.Realizes.{Realizes};
ghost use Rattle.pim_isa.specs.Writes.{nor_places};
ghost use Rattle.pim_isa.specs.declared.draft.TheConstants.{MAX_CELLS};
ghost use Rattle.pim_isa.specs.declared.target.Target.TheVariants.{Magic};
ghost use Rattle.pim_nor.specs.Network.{nor_count};
ghost use Rattle.pim_nor.specs.Values.{out_values};
ghost use Rattle.pim_simpler.specs.Batching.{Batched};
ghost use Rattle.pim_simpler.specs.Following.{Follows, nors_of};
ghost use Rattle.pim_simpler.specs.inner.Runs.{Drafted, Plan, cells_within};
ghost use Rattle.pim_simpler.specs.Needs.{needed_of, order_of, AsksAtMost, IsRefusalFor};

use crate::Refusal;
use crate::scheduler::Scheduler;
use pim_graph::{order, peak};
use pim_io::NoMemory;
use pim_isa::{Ports, Program, ProgramDraft};
use pim_nor::NorNet;
use std::alloc::Global;

/// Schedules a network in at most `budget` cells. Input k stands in cell k, and no instruction writes it.
///
/// The gates are executed in the order of their cell usage, each into the least free cell; a cell is taken again as soon as
/// its value is needed no longer, and all such cells are initialised by one instruction when no other is left.
/// `TooFewCells` comes exactly where the budget is below `needed`, the inputs and the peak of the order. It takes n log n
/// for n gates.
pub fn schedule(alloc: Global, net: &NorNet, ports: &Ports, budget: u32) -> Result<Program, Refusal>
    requires inputs { length ports.now.inputs ≡ net.now.inputs }
    requires outputs { length ports.now.outputs ≡ length net.now.outs }
    requires within { budget ≤ MAX_CELLS }

    // The outputs have the network's values, whatever the other cells held before.
    ensures realizes { IfOk result (λ program. Realizes program ports.now.inputs (out_values net.now)) }
    ensures labels { IfOk result (λ program. labels_of program.outputs ≡ ports.now.outputs) }
    ensures target { IfOk result (λ program. program.target ≡ Magic) }
    ensures cells { IfOk result
        (λ program. program.cells ≡ net.now.inputs + min (budget - net.now.inputs) (length net.now.gates)) }
    ensures primed { IfOk result (λ program. IsPrimed program.instrs) }
    ensures follows { IfOk result (λ program. Follows program net.now (order_of net.now)) }
    ensures batched { IfOk result (λ program. Batched program) }

    // A cycle for each NOR and NOT; the others are Inits, and with a cell for each gate there is one at most.
    ensures nors { IfOk result (λ program. length (nor_places program.instrs) ≡ nor_count net.now.gates) }
    ensures one_init { IfOk result
        (λ program. net.now.inputs + length net.now.gates ≤ budget → count_by is_init program.instrs ≤ 1) }
    ensures quick { IfOk result
        (λ program. net.now.inputs + length net.now.gates ≤ budget → length program.instrs ≤ nor_count net.now.gates + 1) }

    // Too few cells are exactly those below the need.
    ensures accepted { OnOk result (needed_of net.now ≤ budget) }
    ensures refused { IfErr result (IsRefusalFor (needed_of net.now) budget) }
    ensures most { IfErr result (AsksAtMost (net.now.inputs + nor_count net.now.gates + 1)) }
    ensures roomy { IfErr result (AsksAtMost (net.now.inputs + length net.now.gates)) }
{
    match Program::new(drafted(alloc, net, ports, budget)?) {
        Ok(program) => {
            program.laws();
            net.has_values();
            Ok(program)
        }
        Err(_) => unreachable!(),
    }
}

/// The draft of a schedule, if the budget has the cells that are needed.
fn drafted(alloc: Global, net: &NorNet, ports: &Ports, budget: u32) -> Result<ProgramDraft, Refusal>
    requires inputs { length ports.now.inputs ≡ net.now.inputs }
    requires outputs { length ports.now.outputs ≡ length net.now.outs }
    requires within { budget ≤ MAX_CELLS }
    ensures plan { OnOk result (Plan net.now (order_of net.now) (cells_within net.now budget)) }
    ensures draft { IfOk result (λ draft. Drafted net.now ports.now (order_of net.now) (cells_within net.now budget) draft) }
    ensures full { OnOk result (length (order_of net.now) ≡ length net.now.gates) }
    ensures nors { OnOk result (length (nors_of net.now (order_of net.now)) ≡ nor_count net.now.gates) }
    ensures accepted { OnOk result (needed_of net.now ≤ budget) }
    ensures refused { IfErr result (IsRefusalFor (needed_of net.now) budget) }
    ensures most { IfErr result (AsksAtMost (net.now.inputs + nor_count net.now.gates + 1)) }
    ensures roomy { IfErr result (AsksAtMost (net.now.inputs + length net.now.gates)) }
{
    let gates = planned(alloc, net, budget)?;
    let cells = cells_within(net, budget);
    let draft = draft(alloc, net, ports, &gates, cells)?;
    Ok(draft)
}

/// The order of a network's gates, if the budget has the cells that are needed.
fn planned(alloc: Global, net: &NorNet, budget: u32) -> Result<Vec<u32>, Refusal>
    ensures order { IfOk result (λ gates. gates.items ≡ order_of net.now) }
    ensures plan { OnOk result (Plan net.now (order_of net.now) (cells_within net.now budget)) }
    ensures full { OnOk result (length (order_of net.now) ≡ length net.now.gates) }
    ensures nors { OnOk result (length (nors_of net.now (order_of net.now)) ≡ nor_count net.now.gates) }
    ensures accepted { OnOk result (needed_of net.now ≤ budget) }
    ensures refused { IfErr result (IsRefusalFor (needed_of net.now) budget) }
    ensures most { IfErr result (AsksAtMost (net.now.inputs + nor_count net.now.gates + 1)) }
    ensures roomy { IfErr result (AsksAtMost (net.now.inputs + length net.now.gates)) }
{
    let graph = net.graph();
    let gates = order(alloc, graph)?;
    let inputs = net.inputs();
    let needed = inputs + peak(alloc, graph, &gates)?;
    if budget < needed {
        return Err(Refusal::TooFewCells { needed });
    }
    Ok(gates)
}

/// How many cells of a budget a schedule takes: at most one for each input and each gate.
fn cells_within(net: &NorNet, budget: u32) -> u32
    requires enough { net.now.inputs ≤ budget }
    ensures cells { result ≡ cells_within net.now budget }
    ensures within { result ≤ budget }
{
    let inputs = net.inputs();
    inputs + (budget - inputs).min(net.gates().len() as u32)
}

/// How many cells a network needs: those of its inputs, and the peak of its order. It takes n log n for n gates.
pub fn needed(alloc: Global, net: &NorNet) -> Result<u32, NoMemory>
    ensures need { IfOk result (λ cells. cells ≡ needed_of net.now) }
    ensures most { IfOk result (λ cells. cells ≤ net.now.inputs + nor_count net.now.gates + 1) }
{
    let graph = net.graph();
    let gates = order(alloc, graph)?;
    Ok(net.inputs() + peak(alloc, graph, &gates)?)
}

/// The draft of a schedule with these cells.
fn draft(
    alloc: Global,
    net: &NorNet,
    ports: &Ports,
    order: &[u32],
    cells: u32,
) -> Result<ProgramDraft, NoMemory>
    requires plan { Plan net.now order.now cells }
    requires few { cells ≤ MAX_CELLS }
    requires inputs { length ports.now.inputs ≡ net.now.inputs }
    requires outputs { length ports.now.outputs ≡ length net.now.outs }
    ensures { IfOk result (λ draft. Drafted net.now ports.now order.now cells draft) }
{
    let mut scheduler = Scheduler::new(alloc, net, order, cells)?;
    scheduler.run(order)?;
    scheduler.finish(ports)
}
