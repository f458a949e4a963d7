ghost use Rattle.std.specs.Prelude.{◌≡◌, ◌≤◌, length, IfErr, IfOk, IfSome, OnOk};
ghost use Rattle.pim_aig.specs.Faults.{Says};
ghost use Rattle.pim_aig.specs.Flat.{ands, flat};
ghost use Rattle.pim_aig.specs.declared.graph.TheConstants.{MAX_ANDS};
ghost use Rattle.pim_isa.specs.Primed.{IsPrimed};
ghost use Rattle.pim_isa.specs.Writes.{nor_places};
ghost use Rattle.pim_isa.specs.declared.draft.TheConstants.{MAX_CELLS};
ghost use Rattle.pim_simpler.specs.Batching.{Batched};
ghost use Rattle.pim_compile.specs.Choices.{IsChosen};
ghost use Rattle.pim_compile.specs.Computes.{Computes};
ghost use Rattle.pim_compile.specs.Cycles.{IsQuick, TakesCycles};
ghost use Rattle.pim_compile.specs.Networks.{FollowsSome, coarse_need, coarse_of, need, need_of, nors_of_two};
ghost use Rattle.pim_compile.specs.Refusals.{IsAccepted, IsCoarse, IsRefusal};
ghost use Rattle.pim_compile.specs.Targets.{OnMagic, OnPlim};
ghost use Rattle.pim_compile.specs.inner.Fits.{TellsNeed, program_of};
ghost use Rattle.pim_compile.specs.inner.Scheduled.{IsScheduled};

use crate::fit::Fit;
use crate::job::Job;
use crate::{Refusal, magic, plim};
use pim_aig::{Aig, FlatFault, flatten};
use pim_io::NoMemory;
use pim_isa::{Program, Target};
use pim_net::Net;
use pim_ports::ports_of;
use std::alloc::Global;

/// How much is done to make a program shorter.
#[derive(Clone, Copy, Debug, PartialEq, Eq)]
pub enum Level {
    /// Nothing: the netlist is taken as it is.
    Zero,
    /// The tidied graph is tried too, for PLiM as a graph of majorities.
    One,
    /// For PLiM that graph is rewritten as well; for MAGIC nothing more is done.
    Two,
}

/// How many cells a netlist needs: `compile` refuses only budgets below it, and for MAGIC at level 0 all of these. It takes
/// n log n for n gates. The only errors are those of `flatten`.
pub fn need(alloc: Global, net: &Net, target: Target) -> Result<u32, FlatFault>
    ensures need { IfOk result (λ cells. cells ≡ need net.now target) }
    ensures coarse { IfOk result (λ cells. cells ≤ coarse_need net.now target) }
    ensures accepted { OnOk result (ands net.now ≤ MAX_ANDS) }
    ensures counted { OnOk result (length (flat net.now).ands ≡ ands net.now) }
    ensures fault { IfErr result (λ fault. Says fault (ands net.now)) }
{
    let aig = flatten(alloc, net)?;
    let cells = needed(alloc, &aig, target)?;
    Ok(cells)
}

/// How many cells a graph needs.
fn needed(alloc: Global, aig: &Aig, target: Target) -> Result<u32, NoMemory>
    ensures need { IfOk result (λ cells. cells ≡ need_of aig.now target) }
    ensures coarse { IfOk result (λ cells. cells ≤ coarse_of aig.now target) }
{
    match target {
        Target::Magic => magic::needed(alloc, aig),
        Target::Plim => pim_rm3::needed(alloc, aig),
    }
}

/// Compiles a netlist to a program for at most `budget` cells: input k stands in cell k, and no instruction writes it.
///
/// The netlist is flattened. For MAGIC the flat graph is lowered to NOR gates of up to four operands, and again to gates of
/// up to two. Each of these networks is scheduled, if the budget is at least the cells that it needs, with cells taken again
/// as soon as their value is needed no longer. Above level 0 the two networks of the tidied graph come before these, if they
/// have no more NORs than the flat graph's of up to two operands. The program with the fewest cycles is taken, and the first
/// one if several have as many. For PLiM the flat graph itself is scheduled, and a gate takes over the cell of an operand
/// that it alone reads. Above level 0 the tidied graph comes before it as one of majorities, and at level 2 the same rewritten
/// before that; a program that takes more cycles than the flat graph's is passed over. It takes n log n for n gates, and for
/// the rewriting linear time for each of its rounds. Too many nodes come before too few cells.
pub fn compile(
    alloc: Global,
    net: &Net,
    target: Target,
    level: Level,
    budget: u32,
) -> Result<Program, Refusal>
    requires { budget ≤ MAX_CELLS }
    ensures computes { IfOk result (λ program. Computes program net.now) }
    ensures target { IfOk result (λ program. program.target ≡ target) }
    ensures cells { IfOk result (λ program. program.cells ≤ budget) }
    ensures primed { IfOk result (λ program. IsPrimed program.instrs) }

    // For MAGIC gates are executed in the order of cell usage, and cells are initialised together and taken again.
    ensures follows { IfOk result (λ program. OnMagic target (FollowsSome level program net.now)) }
    ensures batched { IfOk result (λ program. OnMagic target (Batched program)) }
    ensures nors { IfOk result (λ program. OnMagic target (length (nor_places program.instrs) ≤ nors_of_two net.now)) }
    ensures chosen { IfOk result (λ program. OnMagic target (IsChosen level net.now budget program)) }
    ensures quick { IfOk result (λ program. OnMagic target (IsQuick level net.now budget program)) }

    // For PLiM the cycles are those of the flat graph's gates, or fewer above level 0.
    ensures cycles { IfOk result (λ program. OnPlim target (TakesCycles level net.now budget program)) }

    // Too few cells come only where the budget is below the need, and for MAGIC at level 0 exactly there.
    ensures accepted { OnOk result (IsAccepted net.now target level budget) }
    ensures refused { IfErr result (IsRefusal net.now target budget) }
    ensures coarse { IfErr result (IsCoarse net.now target budget) }
{
    let aig = flatten(alloc, net)?;
    let ports = ports_of(alloc, net)?;
    let job = Job {
        alloc,
        aig: &aig,
        ports: &ports,
        budget,
    };
    match best(&job, target, level)? {
        Fit::Program(program) => Ok(program),
        Fit::Needs(needed) => Err(Refusal::TooFewCells { needed }),
    }
}

/// The shortest program of a graph, or its need if none fits.
fn best(job: &Job, target: Target, level: Level) -> Result<Fit, NoMemory>
    ensures fits { IfOk result (λ fit. IfSome (program_of fit) (IsScheduled job.now.aig.now job.now.ports.now target level job.now.budget)) }
    ensures need { IfOk result (TellsNeed (need_of job.now.aig.now target) (coarse_of job.now.aig.now target) job.now.budget) }
{
    match target {
        Target::Magic => magic::best(job, level),
        Target::Plim => plim::best(job, level),
    }
}
