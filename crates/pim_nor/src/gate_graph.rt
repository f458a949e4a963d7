ghost use Rattle.std.specs.Prelude.{◌≡◌, ◌+◌, ◌<◌, ◌^◌, [], ℕ, All, length, map, slice_index_or, IfOk, OnOk};
ghost use Rattle.pim_graph.specs.Graphs.{has};
ghost use Rattle.pim_nor.specs.GateGraphs.{gates_among, gates_read, with_gate};
ghost use Rattle.pim_nor.specs.Network.{pins, AreInputsOrFirst};
ghost use Rattle.pim_nor.specs.declared.network.Gate.{Gate};

use crate::{Gate, Pin};
use pim_graph::Graph;
use pim_io::NoMemory;
use std::alloc::Global;

/// Puts the gate of a pin at the end of a list, unless it is there already. An input has no gate.
fn put_gate(gates: &mut Vec<u32>, pin: Pin) -> Result<(), NoMemory>
    ensures { OnOk result (gates.new.items ≡ with_gate gates.old.items pin) }
{
    if let Pin::Gate(gate) = pin {
        if !gates.contains(&gate) {
            gates.push(gate)?;
        }
    }
    Ok(())
}

/// Replaces what a list holds by the gates of these pins, in their order and each once. It takes the square of their
/// number, so it is for the few operands of a gate.
fn put_gates(gates: &mut Vec<u32>, pins: &[Pin]) -> Result<(), NoMemory>
    ensures { OnOk result (gates.new.items ≡ gates_among pins.now) }
{
    gates.clear();
    for pin in pins {
        put_gate(gates, *pin)?;
    }
    Ok(())
}

/// Replaces what a list holds by the gates that a gate reads, in the order of its operands and each once.
fn put_gates_read(gates: &mut Vec<u32>, gate: Gate) -> Result<(), NoMemory>
    ensures { OnOk result (gates.new.items ≡ gates_read gate) }
{
    match gate {
        Gate::One => put_gates(gates, &[]),
        Gate::Not(a) => put_gates(gates, &[a]),
        Gate::Nor(a, b) => put_gates(gates, &[a, b]),
        Gate::Nor3(a, b, c) => put_gates(gates, &[a, b, c]),
        Gate::Nor4(a, b, c, d) => put_gates(gates, &[a, b, c, d]),
    }
}

/// The graph of gates that read gates before them, without roots. Linear.
fn rootless(alloc: Global, gates: &[Gate]) -> Result<Graph, NoMemory>
    requires after { (k : ℕ) (d : Gate) → k < length gates.now
        → AreInputsOrFirst k (pins (slice_index_or gates.now k d)) }
    requires few { length gates.now < 2 ^ 27 }
    ensures { IfOk result (λ graph. graph ≡ record { kids = map gates_read gates.now; roots = [] }) }
{
    let mut graph = Graph::new(alloc);
    let mut children = Vec::new(alloc);
    for gate in gates {
        put_gates_read(&mut children, *gate)?;
        graph.add(&children)?;
    }
    Ok(graph)
}

/// The graph of a network: what each gate reads, and as roots the gates of the outputs. Linear.
pub(crate) fn graph_of(alloc: Global, gates: &[Gate], outs: &[Pin]) -> Result<Graph, NoMemory>
    requires after { (k : ℕ) (d : Gate) → k < length gates.now
        → AreInputsOrFirst k (pins (slice_index_or gates.now k d)) }
    requires few { length gates.now < 2 ^ 27 }
    requires outs { AreInputsOrFirst (length gates.now) outs.now }
    ensures { IfOk result
        (λ graph. graph ≡ record { kids = map gates_read gates.now; roots = gates_among outs.now }) }
{
    let mut graph = rootless(alloc, gates)?;
    for out in outs {
        if let Pin::Gate(gate) = out {
            graph.add_root(*gate)?;
        }
    }
    Ok(graph)
}
