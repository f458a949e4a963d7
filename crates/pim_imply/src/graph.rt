ghost use Rattle.std.specs.Prelude.{◌≡◌, ◌*◌, ◌^◌, ◌<◌, ◌≤◌, [], All, length, map, IfOk, OnOk};
ghost use Rattle.std.specs.List.{range_with_len};
ghost use Rattle.pim_aig.specs.Graph.{IsAig, nodes};
ghost use Rattle.pim_imply.specs.Gates.{gates_of, imply_graph, is_input, operands, turned, with_root};

use pim_aig::{Aig, Lit};
use pim_graph::Graph;
use pim_io::NoMemory;
use std::alloc::Global;

/// How many literals a graph has: two for each node.
pub(crate) fn literals(aig: &Aig) -> u32
    ensures count { result ≡ 2 * nodes aig.now }
    ensures few { result < 2 ^ 27 }
    ensures sound { IsAig aig.now }
{
    2 * (1 + aig.inputs() + aig.ands().len() as u32)
}

/// The number of a literal's gate, and the literal of a gate's number.
pub(crate) fn turned(literal: u32) -> u32
    ensures { result ≡ turned literal }
{
    if literal / 2 == 0 {
        literal
    } else if literal % 2 == 0 {
        literal + 1
    } else {
        literal - 1
    }
}

/// Whether the literal is that of an input, which takes no gate.
pub(crate) fn is_input(aig: &Aig, literal: u32) -> bool
    ensures { result ≡ is_input aig.now literal }
{
    literal % 2 == 0 && 0 < literal / 2 && literal / 2 <= aig.inputs()
}

/// Replaces what a list holds by the literals that the gate of a literal reads.
pub(crate) fn put_operands(list: &mut Vec<u32>, aig: &Aig, literal: u32) -> Result<(), NoMemory>
    requires { literal < 2 * nodes aig.now }
    ensures { OnOk result (list.new.items ≡ operands aig.now literal) }
{
    list.clear();
    let node = literal / 2;
    if node == 0 {
        if literal == 1 {
            list.push(0)?;
        }
        return Ok(());
    }
    if literal % 2 == 0 {
        if node > aig.inputs() {
            list.push(literal + 1)?;
        }
        return Ok(());
    }
    if node <= aig.inputs() {
        list.push(literal - 1)?;
        return Ok(());
    }
    let and = aig.ands()[(node - 1 - aig.inputs()) as usize];
    list.push(and.x.0)?;
    if and.x.0 != and.y.0 {
        list.push(and.y.0)?;
    }
    Ok(())
}

/// Replaces what a list holds by the gates of the literals that take one.
fn put_gates(gates: &mut Vec<u32>, aig: &Aig, literals: &[u32]) -> Result<(), NoMemory>
    ensures { OnOk result (gates.new.items ≡ gates_of aig.now literals.now) }
{
    gates.clear();
    for literal in literals {
        if !is_input(aig, *literal) {
            gates.push(turned(*literal))?;
        }
    }
    Ok(())
}

/// The graph of all literals as gates, without roots. Linear.
fn rootless(alloc: Global, aig: &Aig) -> Result<Graph, NoMemory>
    ensures { IfOk result (λ graph. graph ≡ record {
      kids = map (λ gate. gates_of aig.now (operands aig.now (turned gate))) (range_with_len 0 (2 * nodes aig.now));
      roots = [];
    }) }
{
    let mut graph = Graph::new(alloc);
    let mut operands = Vec::new(alloc);
    let mut children = Vec::new(alloc);
    for gate in 0..literals(aig) {
        put_operands(&mut operands, aig, turned(gate))?;
        put_gates(&mut children, aig, &operands)?;
        graph.add(&children)?;
    }
    Ok(graph)
}

/// Makes the gate of an output a root, unless the output is an input.
fn put_root(graph: &mut Graph, aig: &Aig, output: Lit) -> Result<(), NoMemory>
    requires { turned output.0 < length graph.old.kids }
    ensures { OnOk result (graph.new ≡ record graph.old { roots = with_root aig.now graph.old.roots output }) }
{
    if is_input(aig, output.0) {
        return Ok(());
    }
    graph.add_root(turned(output.0))?;
    Ok(())
}

/// The graph of all literals as gates, with those of the outputs as its roots. Linear.
pub(crate) fn imply_graph(alloc: Global, aig: &Aig) -> Result<Graph, NoMemory>
    ensures { IfOk result (λ graph. graph ≡ imply_graph aig.now) }
{
    let mut graph = rootless(alloc, aig)?;
    let outputs = aig.outputs();
    for output in outputs {
        put_root(&mut graph, aig, *output)?;
    }
    Ok(graph)
}
