ghost use Rattle.std.specs.Prelude.{◌≡◌, ◌+◌, ◌++◌, ◌∷◌, [], ◌<◌, ◌≤◌, All, length, slice_set, IfErr, IfOk, OnOk};
ghost use Rattle.pim_graph.specs.Graphs.{has};
ghost use Rattle.pim_isa.specs.Sound.{cells_of};
ghost use Rattle.pim_isa.specs.Touches.{operands};
ghost use Rattle.pim_isa.specs.declared.target.Target.TheVariants as targets;
ghost use Rattle.pim_life.specs.NorGraphs.{nor_graph_of, with_gate};
ghost use Rattle.pim_life.specs.TreeLines.{IsRefusedTree};
ghost use Rattle.pim_life.specs.inner.Drawing.{Holds, drawn_after, drawn_from, emptied, gate_in, gates_held};

use crate::tree_fault::TreeFault;
use pim_graph::Graph;
use pim_io::NoMemory;
use pim_isa::{Ins, Instr, Port, Program, Target};
use std::alloc::Global;

/// A graph has fewer gates than this.
const MAX_GATES: u32 = 268_435_456;

/// The graph of a MAGIC program's NORs: a gate for each, in order. It reads the NORs that wrote its operands' cells last, and the roots
/// are those that wrote the outputs' cells last. Linear in the cells and in those that the instructions name.
pub fn nor_graph(alloc: Global, program: &Program) -> Result<Graph, TreeFault>
    ensures graph { IfOk result (λ graph. graph ≡ nor_graph_of program.now) }
    ensures magic { OnOk result (program.now.target ≡ targets.Magic) }
    ensures refused { IfErr result (IsRefusedTree program.now) }
{
    match program.target() {
        Target::Magic => Ok(draw(alloc, program)?),
        Target::Plim => Err(TreeFault::NotMagic),
    }
}

/// The graph of a program's NORs.
fn draw(alloc: Global, program: &Program) -> Result<Graph, NoMemory>
    ensures { IfOk result (λ graph. graph ≡ nor_graph_of program.now) }
{
    program.laws();
    let mut graph = Graph::new(alloc);
    let mut held = vec![in alloc; None; program.cells() as usize]?;
    draw_all(alloc, &mut graph, &mut held, program.instrs())?;
    add_roots(&mut graph, &held, program.outputs())?;
    Ok(graph)
}

/// The gates of the instructions.
fn draw_all(
    alloc: Global,
    graph: &mut Graph,
    held: &mut Vec<Option<u32>>,
    instrs: &[Instr],
) -> Result<(), NoMemory>
    requires { Holds graph.old.kids held.old.items }
    ensures drawn { OnOk result (record { kids = graph.new.kids; held = held.new.items }
        ≡ drawn_from (record { kids = graph.old.kids; held = held.old.items }) instrs.now) }
    ensures roots { OnOk result (graph.new.roots ≡ graph.old.roots) }
    ensures holds { OnOk result (Holds graph.new.kids held.new.items) }
{
    let mut children = Vec::new(alloc);
    for instr in instrs {
        step(graph, held, &mut children, instr)?;
    }
    Ok(())
}

/// The gate of one instruction, if it is a NOR. What it reads is listed in `children`, which is room for that alone.
fn step(
    graph: &mut Graph,
    held: &mut Vec<Option<u32>>,
    children: &mut Vec<u32>,
    instr: &Instr,
) -> Result<(), NoMemory>
    requires { Holds graph.old.kids held.old.items }
    ensures drawn { OnOk result (record { kids = graph.new.kids; held = held.new.items }
        ≡ drawn_after (record { kids = graph.old.kids; held = held.old.items }) instr.now) }
    ensures roots { OnOk result (graph.new.roots ≡ graph.old.roots) }
    ensures holds { OnOk result (Holds graph.new.kids held.new.items) }
{
    match instr {
        Instr::Init(cells) => empty(held, cells.list()),
        Instr::Nor { t, ins } => {
            list_operands(children, held, *ins)?;
            let gate = add_gate(graph, children)?;
            put(held, *t, Some(gate));
        }
        Instr::Rm3 { z, .. } => empty(held, &[*z]),
    }
    Ok(())
}

/// Appends a gate. A graph of `MAX_GATES` - 1 gates is full, and has no memory for it.
fn add_gate(graph: &mut Graph, children: &[u32]) -> Result<u32, NoMemory>
    requires few { length children.now ≤ 4 }
    requires there { All (λ c. c < length graph.old.kids) children.now }
    ensures number { IfOk result (λ gate. gate ≡ length graph.old.kids) }
    ensures grown { OnOk result (graph.new ≡ record graph.old { kids = graph.old.kids ++ children.now ∷ [] }) }
{
    if graph.len() + 1 >= MAX_GATES {
        return Err(NoMemory);
    }
    graph.add(children)
}

/// The gate that a cell holds.
fn gate_of(held: &[Option<u32>], cell: u32) -> Option<u32>
    ensures { result ≡ gate_in held.now cell }
{
    held.get(cell as usize).copied().unwrap_or(None)
}

/// What a cell holds from here on.
fn put(held: &mut Vec<Option<u32>>, cell: u32, gate: Option<u32>)
    ensures { held.new.items ≡ slice_set held.old.items cell gate }
{
    if let Some(place) = held.get_mut(cell as usize) {
        *place = gate;
    }
}

/// The cells hold no gate from here on.
fn empty(held: &mut Vec<Option<u32>>, cells: &[u32])
    ensures { held.new.items ≡ emptied cells.now held.old.items }
{
    for cell in cells {
        put(held, *cell, None);
    }
}

/// Makes a list the gates that the operands' cells hold, each once.
fn list_operands(gates: &mut Vec<u32>, held: &[Option<u32>], ins: Ins) -> Result<(), NoMemory>
    ensures gates { OnOk result (gates.new.items ≡ gates_held held.now [] (operands ins)) }
    ensures few { OnOk result (length gates.new.items ≤ 4) }
{
    match ins {
        Ins::One(a) => list_gates(gates, held, &[a]),
        Ins::Two(a, b) => list_gates(gates, held, &[a, b]),
        Ins::Three(a, b, c) => list_gates(gates, held, &[a, b, c]),
        Ins::Four(a, b, c, d) => list_gates(gates, held, &[a, b, c, d]),
    }
}

/// Makes a list the gates that the cells hold, each once.
fn list_gates(gates: &mut Vec<u32>, held: &[Option<u32>], cells: &[u32]) -> Result<(), NoMemory>
    ensures gates { OnOk result (gates.new.items ≡ gates_held held.now [] cells.now) }
    ensures few { OnOk result (length gates.new.items ≤ length cells.now) }
{
    gates.clear();
    for cell in cells {
        add(gates, gate_of(held, *cell))?;
    }
    Ok(())
}

/// Appends a gate, if it isn't there. It looks through the list, so it is for the few gates that a gate reads.
fn add(gates: &mut Vec<u32>, gate: Option<u32>) -> Result<(), NoMemory>
    ensures gates { OnOk result (gates.new.items ≡ with_gate gates.old.items gate) }
    ensures few { length gates.new.items ≤ length gates.old.items + 1 }
{
    if let Some(gate) = gate {
        if !contains(gates, gate) {
            gates.push(gate)?;
        }
    }
    Ok(())
}

/// Whether the gate is there.
fn contains(gates: &[u32], gate: u32) -> bool
    ensures { result ≡ has gates.now gate }
{
    for other in gates {
        if *other == gate {
            return true;
        }
    }
    false
}

/// The gates that the outputs' cells hold are roots.
fn add_roots(graph: &mut Graph, held: &[Option<u32>], outputs: &[Port]) -> Result<(), NoMemory>
    requires { Holds graph.old.kids held.now }
    ensures roots { OnOk result (graph.new.roots ≡ gates_held held.now graph.old.roots (cells_of outputs.now)) }
    ensures kids { OnOk result (graph.new.kids ≡ graph.old.kids) }
{
    for port in outputs {
        if let Some(gate) = gate_of(held, port.cell) {
            graph.add_root(gate)?;
        }
    }
    Ok(())
}
