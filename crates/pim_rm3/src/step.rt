ghost use Rattle.std.specs.Prelude.{◌≡◌, ◌*◌, ◌/◌, ◌^◌, ◌<◌, map, IfOk};
ghost use Rattle.std.specs.List.{range_with_len};
ghost use Rattle.pim_graph.specs.Readers.{CountsReads};
ghost use Rattle.pim_mig.specs.Graph.{size};
ghost use Rattle.pim_rm3.specs.inner.Operands.{StepsBelow};
ghost use Rattle.pim_rm3.specs.Steps.{maj_at, mig_gates, mig_graph, step_of};

use crate::mig_graph::literals;
use crate::role::{Role, least_role};
use crate::taking::can_be_taken;
use pim_aig::Lit;
use pim_graph::{Graph, Readers};
use pim_io::NoMemory;
use pim_mig::{Maj, Mig};
use std::alloc::Global;

/// How the gate of a literal of a majority graph is computed.
#[derive(Clone, Copy, Debug, PartialEq, Eq)]
pub(crate) enum Step {
    /// A constant is set.
    Constant(bool),

    /// An input stands in a cell from the start.
    Input,

    /// A complement is this literal.
    Complement(Lit),

    /// A majority node is computed by one instruction, its operands in these roles.
    Vote(Role),
}

/// The majority node of a literal.
pub(crate) fn maj_at(mig: &Mig, literal: u32) -> Maj
    requires there { literal < 2 * size mig.now }
    requires node { mig.now.inputs < literal / 2 }
    ensures { result ≡ maj_at mig.now literal }
{
    mig.nodes()[(literal / 2 - 1 - mig.inputs()) as usize]
}

/// How the gate of a literal is computed.
#[tactic(auto, using(crate::proofs::StepLaws::kids_count))]
fn step_of(mig: &Mig, graph: &Graph, readers: &Readers, literal: u32) -> Step
    requires graph { graph.now ≡ mig_graph mig.now }
    requires readers { CountsReads (mig_graph mig.now) (mig_gates mig.now) readers.now }
    requires there { literal < 2 * size mig.now }
    ensures { result ≡ step_of mig.now literal }
{
    let node = literal / 2;
    if node == 0 {
        return Step::Constant(literal == 1);
    }
    if literal % 2 == 1 {
        return Step::Complement(Lit(literal));
    }
    let inputs = mig.inputs();
    if node <= inputs {
        return Step::Input;
    }
    let maj = maj_at(mig, literal);
    let x = can_be_taken(inputs, graph, readers, maj.x);
    let y = can_be_taken(inputs, graph, readers, maj.y);
    let z = can_be_taken(inputs, graph, readers, maj.z);
    Step::Vote(least_role(maj, x, y, z))
}

/// How the gates of all literals are computed.
pub(crate) fn steps(
    alloc: Global,
    mig: &Mig,
    graph: &Graph,
    order: &[u32],
) -> Result<Vec<Step>, NoMemory>
    requires graph { graph.now ≡ mig_graph mig.now }
    requires order { order.now ≡ mig_gates mig.now }
    ensures { IfOk result (λ steps. steps.items ≡ map (step_of mig.now) (range_with_len 0 (2 * size mig.now))) }
{
    graph.has_order();
    let readers = Readers::new(alloc, graph, order)?;
    let mut steps = Vec::new(alloc);
    for literal in 0..literals(mig) {
        steps.push(step_of(mig, graph, &readers, literal))?;
    }
    Ok(steps)
}

/// How the gate of a literal is computed, of all steps.
pub(crate) fn step_at(mig: &Mig, steps: &[Step], literal: u32) -> Step
    requires steps { steps.now ≡ map (step_of mig.now) (range_with_len 0 (2 * size mig.now)) }
    requires there { literal < 2 * size mig.now }
    ensures step { result ≡ step_of mig.now literal }
    ensures below { StepsBelow literal result }
    ensures few { 2 * size mig.now < 2 ^ 24 }
{
    let _count = literals(mig);
    steps[literal as usize]
}
