ghost use Rattle.std.specs.Prelude.{◌≡◌, ◌*◌, ◌^◌, ◌<◌, ◌≤◌, All, length, map, IfOk};
ghost use Rattle.pim_aig.specs.Graph.{nodes};
ghost use Rattle.pim_rm3.specs.Gates.{gates, taken};
ghost use Rattle.pim_rm3.specs.Costs.{cost_of, rm3_cost};

use crate::gate::{Gate, gate_of};
use crate::gate_graph::gate_graph;
use crate::over::all_taken;
use pim_aig::Aig;
use pim_graph::order;
use pim_io::NoMemory;
use std::alloc::Global;

/// How many cycles a gate takes.
fn cost_of(over: Option<u32>, gate: Gate) -> u32
    ensures cost { result ≡ cost_of over gate }
    ensures few { result ≤ 3 }
{
    match gate {
        Gate::Constant(_) => 1,
        Gate::Input => 0,
        Gate::Not(_) => 2,
        Gate::And(_, _) => match over {
            Some(_) => 1,
            None => 3,
        },
    }
}

/// How many cycles the gates of the order take, which take these cells over.
fn total(aig: &Aig, over: &[Option<u32>], order: &[u32]) -> u32
    requires order { order.now ≡ gates aig.now }
    requires there { All (λ l. l < 2 * nodes aig.now) order.now }
    requires over { over.now ≡ map (taken aig.now) order.now }
    requires few { length order.now < 2 ^ 28 }
    ensures { result ≡ rm3_cost aig.now }
{
    let mut cycles = 0;
    for (place, gate) in order.iter().enumerate() {
        cycles += cost_of(over[place], gate_of(aig, *gate));
    }
    cycles
}

/// How many cycles the schedule of a graph takes: one for an AND that takes a cell over, three for any other, two for
/// each complement that is an output, and one for each constant that is one. Near linear in the graph.
pub fn rm3_cost(alloc: Global, aig: &Aig) -> Result<u32, NoMemory>
    ensures { IfOk result (λ cycles. cycles ≡ rm3_cost aig.now) }
{
    let graph = gate_graph(alloc, aig)?;
    graph.has_order();
    let gates = order(alloc, &graph)?;
    let over = all_taken(alloc, aig, &graph, &gates)?;
    Ok(total(aig, &over, &gates))
}
