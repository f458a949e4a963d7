ghost use Rattle.std.specs.Prelude.{◌≡◌, ◌*◌, ◌^◌, ◌<◌, [], length, IfOk, OnOk, map};
ghost use Rattle.std.specs.List.{range_with_len};
ghost use Rattle.pim_aig.specs.Graph.{nodes};
ghost use Rattle.pim_rm3.specs.Gates.{ands_read, gate_graph, gate_of, is_input, with_and, with_root};

use crate::gate::{Gate, gate_of};
use pim_aig::{Aig, Lit};
use pim_graph::Graph;
use pim_io::NoMemory;
use std::alloc::Global;

/// How many literals a graph has: two for each node.
pub(crate) fn literals(aig: &Aig) -> u32
    ensures count { result ≡ 2 * nodes aig.now }
    ensures few { result < 2 ^ 27 }
{
    2 * (1 + aig.inputs() + aig.ands().len() as u32)
}

/// Whether the literal is that of an input, which takes no gate.
pub(crate) fn is_input(inputs: u32, literal: Lit) -> bool
    ensures { result ≡ is_input inputs literal }
{
    literal.0 % 2 == 0 && 0 < literal.0 / 2 && literal.0 / 2 <= inputs
}

/// Puts the AND node of a literal at the end of a list, unless it is there already.
fn put_and(gates: &mut Vec<u32>, aig: &Aig, literal: Lit) -> Result<(), NoMemory>
    ensures { OnOk result (gates.new.items ≡ with_and aig.now gates.old.items literal) }
{
    if literal.0 / 2 <= aig.inputs() {
        return Ok(());
    }
    let gate = 2 * (literal.0 / 2);
    if !gates.contains(&gate) {
        gates.push(gate)?;
    }
    Ok(())
}

/// Replaces what a list holds by the AND nodes that a gate reads.
fn put_ands_read(gates: &mut Vec<u32>, aig: &Aig, gate: Gate) -> Result<(), NoMemory>
    ensures { OnOk result (gates.new.items ≡ ands_read aig.now gate) }
{
    gates.clear();
    match gate {
        Gate::Constant(_) => Ok(()),
        Gate::Input => Ok(()),
        Gate::Not(m) => put_and(gates, aig, m),
        Gate::And(x, y) => {
            put_and(gates, aig, x)?;
            put_and(gates, aig, y)
        }
    }
}

/// The graph of all literals as gates, without roots. Linear.
fn rootless(alloc: Global, aig: &Aig) -> Result<Graph, NoMemory>
    ensures { IfOk result (λ graph. graph ≡ record {
      kids = map (λ l. ands_read aig.now (gate_of aig.now l)) (range_with_len 0 (2 * nodes aig.now));
      roots = [];
    }) }
{
    let mut graph = Graph::new(alloc);
    let mut children = Vec::new(alloc);
    for literal in 0..literals(aig) {
        put_ands_read(&mut children, aig, gate_of(aig, literal))?;
        graph.add(&children)?;
    }
    Ok(graph)
}

/// Makes the gate of an output a root, unless the output is an input.
pub(crate) fn put_root(graph: &mut Graph, inputs: u32, output: Lit) -> Result<(), NoMemory>
    requires { output.0 < length graph.old.kids }
    ensures { OnOk result (graph.new ≡ record graph.old { roots = with_root inputs graph.old.roots output }) }
{
    if is_input(inputs, output) {
        return Ok(());
    }
    graph.add_root(output.0)?;
    Ok(())
}

/// The graph of all literals as gates, with those of the outputs as its roots. Linear.
pub(crate) fn gate_graph(alloc: Global, aig: &Aig) -> Result<Graph, NoMemory>
    ensures { IfOk result (λ graph. graph ≡ gate_graph aig.now) }
{
    let mut graph = rootless(alloc, aig)?;
    let outputs = aig.outputs();
    for output in outputs {
        put_root(&mut graph, aig.inputs(), *output)?;
    }
    Ok(graph)
}
