ghost use Rattle.std.specs.Prelude.{◌≡◌, ◌*◌, ◌^◌, ◌<◌, ◌++◌, ◌∷◌, [], All, map, IfOk, OnOk, Option};
ghost use Rattle.std.specs.List.{range_with_len};
ghost use Rattle.pim_mig.specs.Graph.{size};
ghost use Rattle.pim_rm3.specs.Steps.{mig_gates, mig_graph, step_of};
ghost use Rattle.pim_rm3.specs.inner.Operands.{StepsBelow};
ghost use Rattle.pim_rm3.specs.Temporaries.{all_reads, full_graph, full_order, full_over, gate_read, own_temporary, step_reads, step_takes, temporary_of, temporary_takes};

use crate::mig_graph::literals;
use crate::role::temporary;
use crate::step::{Step, step_at};
use pim_aig::Lit;
use pim_graph::Graph;
use pim_io::NoMemory;
use pim_mig::Mig;
use std::alloc::Global;

/// The literal for which a step wants a temporary, if it wants one.
pub(crate) fn temporary_of(step: Step) -> Option<Lit>
    ensures { result ≡ temporary_of step }
{
    match step {
        Step::Constant(_) => None,
        Step::Input => None,
        Step::Complement(_) => None,
        Step::Vote(role) => temporary(role),
    }
}

/// Puts the gate of the majority node of an operand at the end of a list.
fn put_gate(gates: &mut Vec<u32>, inputs: u32, literal: Lit) -> Result<(), NoMemory>
    requires { literal.0 < 2 ^ 24 }
    ensures { OnOk result (gates.new.items ≡ gates.old.items ++ gate_read inputs literal) }
{
    if inputs < literal.0 / 2 {
        gates.push(4 * (literal.0 / 2) + 1)?;
    }
    Ok(())
}

/// Puts the temporary of a gate at the end of a list, if there is one.
fn put_temporary(gates: &mut Vec<u32>, literal: u32, wanted: Option<Lit>) -> Result<(), NoMemory>
    requires { literal < 2 ^ 24 }
    ensures { OnOk result (gates.new.items ≡ gates.old.items ++ own_temporary literal wanted) }
{
    if wanted.is_some() {
        gates.push(2 * literal)?;
    }
    Ok(())
}

/// Puts what the gate of a literal reads at the end of a list.
fn put_step_reads(
    gates: &mut Vec<u32>,
    inputs: u32,
    literal: u32,
    step: Step,
) -> Result<(), NoMemory>
    requires there { literal < 2 ^ 24 }
    requires below { StepsBelow literal step }
    ensures { OnOk result (gates.new.items ≡ gates.old.items ++ step_reads inputs literal step) }
{
    match step {
        Step::Constant(_) => Ok(()),
        Step::Input => Ok(()),
        Step::Complement(e) => put_gate(gates, inputs, e),
        Step::Vote(role) => {
            put_gate(gates, inputs, role.p)?;
            put_gate(gates, inputs, role.q)?;
            put_gate(gates, inputs, role.z)?;
            put_temporary(gates, literal, temporary(role))
        }
    }
}

/// Replaces what a list holds by what the gate of a number reads: that of a literal, or a temporary.
#[tactic(auto, using(crate::proofs::StepLaws::all_reads_even, crate::proofs::StepLaws::all_reads_odd))]
fn put_all_reads(
    gates: &mut Vec<u32>,
    mig: &Mig,
    steps: &[Step],
    number: u32,
) -> Result<(), NoMemory>
    requires steps { steps.now ≡ map (step_of mig.now) (range_with_len 0 (2 * size mig.now)) }
    requires there { number < 2 * (2 * size mig.now) }
    ensures { OnOk result (gates.new.items ≡ all_reads mig.now number) }
{
    let literal = number / 2;
    let inputs = mig.inputs();
    let step = step_at(mig, steps, literal);
    gates.clear();
    if number % 2 == 1 {
        return put_step_reads(gates, inputs, literal, step);
    }
    match temporary_of(step) {
        Some(wanted) => put_gate(gates, inputs, wanted),
        None => Ok(()),
    }
}

/// The graph of all gates and their temporaries, without roots. Linear.
fn rootless(alloc: Global, mig: &Mig, steps: &[Step]) -> Result<Graph, NoMemory>
    requires steps { steps.now ≡ map (step_of mig.now) (range_with_len 0 (2 * size mig.now)) }
    ensures { IfOk result (λ graph. graph ≡ record {
      kids = map (all_reads mig.now) (range_with_len 0 (2 * (2 * size mig.now)));
      roots = [];
    }) }
{
    let mut graph = Graph::new(alloc);
    let mut children = Vec::new(alloc);
    for number in 0..2 * literals(mig) {
        put_all_reads(&mut children, mig, steps, number)?;
        graph.add(&children)?;
    }
    Ok(graph)
}

/// The graph of all gates and their temporaries, of the graph of the gates alone. Linear.
pub(crate) fn full_graph(
    alloc: Global,
    mig: &Mig,
    graph: &Graph,
    steps: &[Step],
) -> Result<Graph, NoMemory>
    requires graph { graph.now ≡ mig_graph mig.now }
    requires steps { steps.now ≡ map (step_of mig.now) (range_with_len 0 (2 * size mig.now)) }
    ensures { IfOk result (λ full. full ≡ full_graph mig.now) }
{
    let mut full = rootless(alloc, mig, steps)?;
    let roots = graph.roots();
    for root in roots {
        full.add_root(2 * *root + 1)?;
    }
    Ok(full)
}

/// The order of the gates, with each temporary before the gate that reads it.
pub(crate) fn full_order(
    alloc: Global,
    mig: &Mig,
    steps: &[Step],
    order: &[u32],
) -> Result<Vec<u32>, NoMemory>
    requires order { order.now ≡ mig_gates mig.now }
    requires there { All (λ l. l < 2 * size mig.now) order.now }
    requires steps { steps.now ≡ map (step_of mig.now) (range_with_len 0 (2 * size mig.now)) }
    ensures { IfOk result (λ gates. gates.items ≡ full_order mig.now) }
{
    let mut gates = Vec::new(alloc);
    for literal in order {
        let step = step_at(mig, steps, *literal);
        put_temporary(&mut gates, *literal, temporary_of(step))?;
        gates.push(2 * *literal + 1)?;
    }
    Ok(gates)
}

/// The gate whose cell a step takes over, if it takes one over.
fn step_takes(step: Step, literal: u32) -> Option<u32>
    requires there { literal < 2 ^ 24 }
    requires below { StepsBelow literal step }
    ensures { result ≡ step_takes step }
{
    match step {
        Step::Vote(role) if role.over => Some(2 * role.z.0 + 1),
        _ => None,
    }
}

/// Puts what a step and its temporary take over at the end of a list.
fn put_takes(over: &mut Vec<Option<u32>>, step: Step, literal: u32) -> Result<(), NoMemory>
    requires there { literal < 2 ^ 24 }
    requires below { StepsBelow literal step }
    ensures { OnOk result (over.new.items ≡ over.old.items ++ (temporary_takes (temporary_of step) ++ step_takes step ∷ [])) }
{
    if temporary_of(step).is_some() {
        over.push(None)?;
    }
    over.push(step_takes(step, literal))?;
    Ok(())
}

/// For each gate of the full order the gate whose cell it takes over, if it takes one over.
pub(crate) fn full_over(
    alloc: Global,
    mig: &Mig,
    steps: &[Step],
    order: &[u32],
) -> Result<Vec<Option<u32>>, NoMemory>
    requires order { order.now ≡ mig_gates mig.now }
    requires there { All (λ l. l < 2 * size mig.now) order.now }
    requires steps { steps.now ≡ map (step_of mig.now) (range_with_len 0 (2 * size mig.now)) }
    ensures { IfOk result (λ over. over.items ≡ full_over mig.now) }
{
    let mut over = Vec::new(alloc);
    for literal in order {
        put_takes(&mut over, step_at(mig, steps, *literal), *literal)?;
    }
    Ok(over)
}
