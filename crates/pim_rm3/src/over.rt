ghost use Rattle.std.specs.Prelude.{◌≡◌, ◌*◌, ◌^◌, ◌<◌, ◌≤◌, All, map, IfOk, OnOk, length};
ghost use Rattle.pim_aig.specs.Graph.{nodes};
ghost use Rattle.pim_graph.specs.Allotments.{IsOver};
ghost use Rattle.pim_graph.specs.Readers.{CountsReads};
ghost use Rattle.pim_rm3.specs.Gates.{gate_graph, gates, taken};

use crate::gate::{Gate, gate_of};
use crate::taking::can_be_taken;
use pim_aig::Aig;
use pim_graph::{Graph, Readers};
use pim_io::NoMemory;
use std::alloc::Global;

/// The operand whose cell a gate takes over, if it takes one over.
#[tactic(auto, using(crate::proofs::GateOrders::kids_count))]
fn taken(aig: &Aig, graph: &Graph, readers: &Readers, literal: u32) -> Option<u32>
    requires graph { graph.now ≡ gate_graph aig.now }
    requires readers { CountsReads (gate_graph aig.now) (gates aig.now) readers.now }
    requires there { literal < 2 * nodes aig.now }
    ensures { result ≡ taken aig.now literal }
{
    let Gate::And(x, y) = gate_of(aig, literal) else {
        return None;
    };
    if can_be_taken(aig.inputs(), graph, readers, x) {
        Some(x.0)
    } else if can_be_taken(aig.inputs(), graph, readers, y) {
        Some(y.0)
    } else {
        None
    }
}

/// For each gate of the order the operand whose cell it takes over, if it takes one over.
pub(crate) fn all_taken(
    alloc: Global,
    aig: &Aig,
    graph: &Graph,
    order: &[u32],
) -> Result<Vec<Option<u32>>, NoMemory>
    requires graph { graph.now ≡ gate_graph aig.now }
    requires order { order.now ≡ gates aig.now }
    ensures list { IfOk result (λ over. over.items ≡ map (taken aig.now) (gates aig.now)) }
    ensures there { OnOk result (All (λ l. l < 2 * nodes aig.now) (gates aig.now)) }
    ensures count { OnOk result (length (gates aig.now) ≤ 2 * nodes aig.now) }
    ensures few { OnOk result (length (gates aig.now) < 2 ^ 28) }
    ensures sound { OnOk result (IsOver (gate_graph aig.now) (gates aig.now) (map (taken aig.now) (gates aig.now))) }
{
    graph.has_order();
    let readers = Readers::new(alloc, graph, order)?;
    let mut over = Vec::new(alloc);
    for gate in order {
        over.push(taken(aig, graph, &readers, *gate))?;
    }
    Ok(over)
}
