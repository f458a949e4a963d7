ghost use Rattle.std.specs.Prelude.{◌≡◌, ◌+◌, ◌*◌, ◌<◌, ◌≤◌, [], All, true, length, map, IfOk, OnOk};
ghost use Rattle.pim_aig.specs.Graph.{IsOfFirst};
ghost use Rattle.pim_aig.specs.declared.graph.TheConstants.{MAX_OUTPUTS};
ghost use Rattle.pim_mig.specs.Graph.{size};
ghost use Rattle.pim_aig.specs.Moving.{moved};
ghost use Rattle.pim_mig.specs.Needs.{is_needed, needed_count};
ghost use Rattle.pim_mig.specs.declared.node.TheConstants.{MAX_NODES};
ghost use Rattle.pim_rewrite.specs.Cases.{case_of, spread_case};
ghost use Rattle.pim_rewrite.specs.Normal.{HasValues};
ghost use Rattle.pim_rewrite.specs.Passes.{flipped, inverted, passed, passing, plainly, stepped};
ghost use Rattle.pim_rewrite.specs.inner.Steps.{step_of};
ghost use Rattle.pim_rewrite.specs.inner.Tables.{IsBefore, IsCaseBefore, most_made};
ghost use Rattle.pim_rewrite.specs.declared.rewriting.TheConstants.{MAX_REWRITTEN};

use crate::cases::{Case, case_of};
use crate::reading::Reading;
use pim_aig::{Lit, moved, plain_literals};
use pim_io::NoMemory;
use pim_mig::{Maj, Mig, nodes_have_laws};
use std::alloc::Global;

/// What a pass makes of the needed nodes.
#[derive(Clone, Copy, Debug, PartialEq, Eq)]
pub(crate) enum Pass {
    /// The same nodes.
    Copy,
    /// Nodes of which at most one operand is complemented, constants not counted.
    Flip,
    /// Where a node has a case, the majority of the shared operands and the majority of the rest.
    Distribute,
}

/// The graph that a pass makes of the needed nodes of another one, in order. Expected linear time.
pub(crate) fn make(alloc: Global, reading: &Reading, pass: Pass) -> Result<Mig, NoMemory>
    requires few { needed_count reading.now ≤ MAX_REWRITTEN }
    ensures made { IfOk result (λ new. new ≡ passed (step_of pass reading.now) reading.now) }
    ensures values { IfOk result (λ new. HasValues reading.now new) }
{
    let mut made = Mig::new(alloc, reading.inputs());
    let lits = move_nodes(alloc, reading, pass, &mut made)?;
    add_outputs(&mut made, &lits, reading.outputs())?;
    nodes_have_laws();
    reading.has_values();
    made.has_values();
    Ok(made)
}

/// Makes what a pass makes of the needed nodes, and gives the new literals of the old nodes.
fn move_nodes(
    alloc: Global,
    reading: &Reading,
    pass: Pass,
    made: &mut Mig,
) -> Result<Vec<Lit>, NoMemory>
    requires few { needed_count reading.now ≤ MAX_REWRITTEN }
    requires none { made.old.nodes ≡ [] }
    requires same { made.old.inputs ≡ reading.now.inputs }
    ensures literals { IfOk result (λ lits. lits.items ≡ (passing (step_of pass reading.now) reading.now).lits) }
    ensures nodes { OnOk result (made.new ≡ record made.old { nodes = (passing (step_of pass reading.now) reading.now).nodes }) }
    ensures there { IfOk result (λ lits. All (IsOfFirst (size made.new)) lits.items) }
    ensures count { IfOk result (λ lits. length lits.items ≡ size reading.now) }
{
    let mut lits = plain_literals(alloc, reading.inputs())?;
    let nodes = reading.nodes();
    for node in nodes {
        let literal = step_if_needed(reading, pass, made, &lits, *node)?;
        lits.push(literal)?;
    }
    Ok(lits)
}

/// Makes what a pass makes of one node, if it is needed: the one after those that have a literal.
fn step_if_needed(
    reading: &Reading,
    pass: Pass,
    made: &mut Mig,
    lits: &[Lit],
    node: Maj,
) -> Result<Lit, NoMemory>
    requires same { made.old.inputs ≡ reading.now.inputs }
    requires count { length lits.now < size reading.now }
    requires lits_there { All (IsOfFirst (size made.old)) lits.now }
    requires node_there { IsBefore (length lits.now) node }
    requires room { is_needed reading.now (length lits.now) ≡ true → length made.old.nodes + 1 < MAX_NODES }
    ensures literal { IfOk result (λ l. l
        ≡ (stepped (is_needed reading.now (length lits.now)) (step_of pass reading.now) (record { nodes = made.old.nodes; lits = lits.now }) node).lit) }
    ensures nodes { OnOk result (made.new ≡ record made.old {
      nodes = (stepped (is_needed reading.now (length lits.now)) (step_of pass reading.now) (record { nodes = made.old.nodes; lits = lits.now }) node).nodes;
    }) }
    ensures there { IfOk result (IsOfFirst (size made.new)) }
    ensures no_fewer { OnOk result (length made.old.nodes ≤ length made.new.nodes) }
    ensures few { OnOk result (length made.new.nodes
        ≤ length made.old.nodes + most_made (is_needed reading.now (length lits.now)) (case_of reading.now node)) }
{
    let _ = reading.nodes();
    if !reading.is_needed(lits.len() as u32) {
        return Ok(Lit::FALSE);
    }
    match pass {
        Pass::Copy => copy_node(made, lits, node),
        Pass::Flip => flip_node(made, lits, node),
        Pass::Distribute => match case_of(reading, node) {
            None => copy_node(made, lits, node),
            Some(case) => spread_node(made, lits, case),
        },
    }
}

/// The node of the moved operands.
fn copy_node(made: &mut Mig, lits: &[Lit], node: Maj) -> Result<Lit, NoMemory>
    requires lits_there { All (IsOfFirst (size made.old)) lits.now }
    requires node_there { IsBefore (length lits.now) node }
    requires room { length made.old.nodes < MAX_NODES }
    ensures literal { IfOk result (λ l. l ≡ (plainly made.old.inputs (record { nodes = made.old.nodes; lits = lits.now }) node).lit) }
    ensures nodes { OnOk result (made.new ≡ record made.old {
      nodes = (plainly made.old.inputs (record { nodes = made.old.nodes; lits = lits.now }) node).nodes;
    }) }
    ensures there { IfOk result (IsOfFirst (size made.new)) }
    ensures no_fewer { OnOk result (length made.old.nodes ≤ length made.new.nodes) }
    ensures one_more { OnOk result (length made.new.nodes ≤ length made.old.nodes + 1) }
{
    let x = moved(lits, node.x);
    let y = moved(lits, node.y);
    let z = moved(lits, node.z);
    made.node(x, y, z)
}

/// Whether a literal is a complement and no constant, as a number.
fn inverted(literal: Lit) -> u32
    ensures count { result ≡ inverted literal }
    ensures few { result ≤ 1 }
{
    if literal.0 > 1 && literal.0 % 2 == 1 {
        1
    } else {
        0
    }
}

/// The node of the moved operands, or the complement of the node of their complements, where at least two of them are complemented.
fn flip_node(made: &mut Mig, lits: &[Lit], node: Maj) -> Result<Lit, NoMemory>
    requires lits_there { All (IsOfFirst (size made.old)) lits.now }
    requires node_there { IsBefore (length lits.now) node }
    requires room { length made.old.nodes < MAX_NODES }
    ensures literal { IfOk result (λ l. l ≡ (flipped made.old.inputs (record { nodes = made.old.nodes; lits = lits.now }) node).lit) }
    ensures nodes { OnOk result (made.new ≡ record made.old {
      nodes = (flipped made.old.inputs (record { nodes = made.old.nodes; lits = lits.now }) node).nodes;
    }) }
    ensures there { IfOk result (IsOfFirst (size made.new)) }
    ensures no_fewer { OnOk result (length made.old.nodes ≤ length made.new.nodes) }
    ensures one_more { OnOk result (length made.new.nodes ≤ length made.old.nodes + 1) }
{
    let x = moved(lits, node.x);
    let y = moved(lits, node.y);
    let z = moved(lits, node.z);
    if 1 < inverted(x) + inverted(y) + inverted(z) {
        let turned = made.node(x.complement(), y.complement(), z.complement())?;
        return Ok(turned.complement());
    }
    let literal = made.node(x, y, z)?;
    Ok(literal)
}

/// The majority of the shared operands and the majority of the rest.
fn spread_node(made: &mut Mig, lits: &[Lit], case: Case) -> Result<Lit, NoMemory>
    requires lits_there { All (IsOfFirst (size made.old)) lits.now }
    requires case_there { IsCaseBefore (length lits.now) case }
    requires room { length made.old.nodes + 1 < MAX_NODES }
    ensures literal { IfOk result (λ l. l ≡ (spread_case made.old.inputs (record { nodes = made.old.nodes; lits = lits.now }) case).lit) }
    ensures nodes { OnOk result (made.new ≡ record made.old {
      nodes = (spread_case made.old.inputs (record { nodes = made.old.nodes; lits = lits.now }) case).nodes;
    }) }
    ensures there { IfOk result (IsOfFirst (size made.new)) }
    ensures no_fewer { OnOk result (length made.old.nodes ≤ length made.new.nodes) }
    ensures two_more { OnOk result (length made.new.nodes ≤ length made.old.nodes + 2) }
{
    let u = moved(lits, case.u);
    let v = moved(lits, case.v);
    let w = moved(lits, case.w);
    let inner = made.node(u, v, w)?;
    made.node(moved(lits, case.s), moved(lits, case.t), inner)
}

/// Adds the outputs of a graph, whose nodes have these literals.
fn add_outputs(made: &mut Mig, lits: &[Lit], outputs: &[Lit]) -> Result<(), NoMemory>
    requires none { made.old.outputs ≡ [] }
    requires few { length outputs.now ≤ MAX_OUTPUTS }
    requires outputs_there { All (IsOfFirst (length lits.now)) outputs.now }
    requires there { All (IsOfFirst (size made.old)) lits.now }
    ensures { OnOk result (made.new ≡ record made.old { outputs = map (moved lits.now) outputs.now }) }
{
    for output in outputs {
        made.add_output(moved(lits, *output))?;
    }
    Ok(())
}
