ghost use Rattle.std.specs.Prelude.{◌≡◌, ◌*◌, ◌^◌, ◌<◌, ◌++◌, [], map, IfOk, OnOk};
ghost use Rattle.std.specs.List.{range_with_len};
ghost use Rattle.pim_mig.specs.Graph.{IsMig, size};
ghost use Rattle.pim_rm3.specs.Steps.{gate_reads, mig_graph, node_read};

use crate::gate_graph::put_root;
use crate::step::maj_at;
use pim_aig::Lit;
use pim_graph::Graph;
use pim_io::NoMemory;
use pim_mig::Mig;
use std::alloc::Global;

/// How many literals a graph has: two for each node.
pub(crate) fn literals(mig: &Mig) -> u32
    ensures count { result ≡ 2 * size mig.now }
    ensures few { result < 2 ^ 24 }
    ensures sound { IsMig mig.now }
{
    2 * (1 + mig.inputs() + mig.nodes().len() as u32)
}

/// Puts the majority node of an operand at the end of a list; an input and a constant are read nowhere.
fn put_node(gates: &mut Vec<u32>, inputs: u32, literal: Lit) -> Result<(), NoMemory>
    ensures { OnOk result (gates.new.items ≡ gates.old.items ++ node_read inputs literal) }
{
    if inputs < literal.0 / 2 {
        gates.push(2 * (literal.0 / 2))?;
    }
    Ok(())
}

/// Replaces what a list holds by the majority nodes that the gate of a literal reads.
fn put_reads(gates: &mut Vec<u32>, mig: &Mig, literal: u32) -> Result<(), NoMemory>
    requires { literal < 2 * size mig.now }
    ensures { OnOk result (gates.new.items ≡ gate_reads mig.now literal) }
{
    gates.clear();
    let inputs = mig.inputs();
    if literal % 2 == 1 {
        return put_node(gates, inputs, Lit(literal));
    }
    if literal / 2 <= inputs {
        return Ok(());
    }
    let maj = maj_at(mig, literal);
    put_node(gates, inputs, maj.x)?;
    put_node(gates, inputs, maj.y)?;
    put_node(gates, inputs, maj.z)
}

/// The graph of all literals as gates, without roots. Linear.
fn rootless(alloc: Global, mig: &Mig) -> Result<Graph, NoMemory>
    ensures { IfOk result (λ graph. graph ≡ record {
      kids = map (gate_reads mig.now) (range_with_len 0 (2 * size mig.now));
      roots = [];
    }) }
{
    let mut graph = Graph::new(alloc);
    let mut children = Vec::new(alloc);
    for literal in 0..literals(mig) {
        put_reads(&mut children, mig, literal)?;
        graph.add(&children)?;
    }
    Ok(graph)
}

/// The graph of all literals as gates, with those of the outputs as its roots. Linear.
pub(crate) fn mig_graph(alloc: Global, mig: &Mig) -> Result<Graph, NoMemory>
    ensures { IfOk result (λ graph. graph ≡ mig_graph mig.now) }
{
    let mut graph = rootless(alloc, mig)?;
    let outputs = mig.outputs();
    for output in outputs {
        put_root(&mut graph, mig.inputs(), *output)?;
    }
    Ok(graph)
}
