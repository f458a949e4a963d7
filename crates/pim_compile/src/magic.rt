//! A graph becomes a MAGIC program: it is lowered twice, and above level 0 its tidied form too; the networks are scheduled, and the
//! shortest program is taken.
ghost use Rattle.std.specs.Prelude.{◌≡◌, ◌+◌, ◌≤◌, [], ◌∷◌, length, IfOk};
ghost use Rattle.pim_isa.specs.declared.target.Target.TheVariants as target_is;
ghost use Rattle.pim_nor.specs.Lowered.{nors};
ghost use Rattle.pim_nor.specs.Network.{nor_count};
ghost use Rattle.pim_nor.specs.declared.lowering.Width.TheVariants as width_is;
ghost use Rattle.pim_simpler.specs.Needs.{needed_of};
ghost use Rattle.pim_compile.specs.Networks.{coarse_of, if_few, most_nors, need_of, networks_at, networks_of, tidy_networks};
ghost use Rattle.pim_compile.specs.inner.Candidates.{IsBestOf, IsScheduleOf};
ghost use Rattle.pim_compile.specs.inner.Fits.{TellsNeed, program_of};

use crate::Level;
use crate::fit::Fit;
use crate::job::Job;
use crate::shorter::shorter;
use pim_aig::Aig;
use pim_io::NoMemory;
use pim_isa::Program;
use pim_nor::{NorNet, Width, lower};
use pim_simpler::schedule;
use pim_tidy::tidy;
use std::alloc::Global;

/// How many cells the networks of a graph need, the one that needs fewer.
pub(crate) fn needed(alloc: Global, aig: &Aig) -> Result<u32, NoMemory>
    ensures need { IfOk result (λ cells. cells ≡ need_of aig.now target_is.Magic) }
    ensures coarse { IfOk result (λ cells. cells ≤ coarse_of aig.now target_is.Magic) }
{
    let four = needed_at(alloc, aig, Width::Four)?;
    let two = needed_at(alloc, aig, Width::Two)?;
    Ok(four.min(two))
}

/// How many cells the network of a graph with gates of at most so many operands needs.
fn needed_at(alloc: Global, aig: &Aig, width: Width) -> Result<u32, NoMemory>
    ensures need { IfOk result (λ cells. cells ≡ needed_of (nors aig.now width)) }
    ensures most { IfOk result (λ cells. cells ≤ aig.now.inputs + nor_count (nors aig.now width).gates + 1) }
{
    let network = lower(alloc, aig, width)?;
    pim_simpler::needed(alloc, &network)
}

/// The shortest program of the networks that a level tries, or the need of the graph's own networks if none fits.
pub(crate) fn best(job: &Job, level: Level) -> Result<Fit, NoMemory>
    ensures best { IfOk result (λ fit. IsBestOf job.now.aig.now job.now.ports.now (most_nors job.now.aig.now) job.now.budget
        (networks_at level job.now.aig.now) (program_of fit)) }
    ensures need { IfOk result
        (TellsNeed (need_of job.now.aig.now target_is.Magic) (coarse_of job.now.aig.now target_is.Magic) job.now.budget) }
{
    match level {
        Level::Zero => best_flat(job),
        Level::One | Level::Two => {
            let tidy = best_tidy(job)?;
            let flat = best_flat(job)?;
            Ok(flat.beside(tidy))
        }
    }
}

/// The shorter program of a graph's own networks, or the lesser need if none fits.
fn best_flat(job: &Job) -> Result<Fit, NoMemory>
    ensures best { IfOk result (λ fit. IsBestOf job.now.aig.now job.now.ports.now (most_nors job.now.aig.now) job.now.budget
        (networks_of job.now.aig.now) (program_of fit)) }
    ensures need { IfOk result
        (TellsNeed (need_of job.now.aig.now target_is.Magic) (coarse_of job.now.aig.now target_is.Magic) job.now.budget) }
{
    let four = candidate(job, Width::Four)?;
    let two = candidate(job, Width::Two)?;
    Ok(four.joined(two))
}

/// The program of a graph's network with gates of at most so many operands, or that network's need.
fn candidate(job: &Job, width: Width) -> Result<Fit, NoMemory>
    ensures best { IfOk result (λ fit. IsBestOf job.now.aig.now job.now.ports.now (most_nors job.now.aig.now) job.now.budget
        (nors job.now.aig.now width ∷ []) (program_of fit)) }
    ensures need { IfOk result (TellsNeed (needed_of (nors job.now.aig.now width))
        (job.now.aig.now.inputs + nor_count (nors job.now.aig.now width).gates + 1) job.now.budget) }
{
    let network = lower(job.alloc, job.aig, width)?;
    scheduled(job, &network)
}

/// The shorter program of the networks of a graph's tidied form, if one fits: of those with no more NORs than the graph's own of
/// up to two operands.
fn best_tidy(job: &Job) -> Result<Option<Program>, NoMemory>
    ensures { IfOk result (IsBestOf job.now.aig.now job.now.ports.now (most_nors job.now.aig.now) job.now.budget (tidy_networks job.now.aig.now)) }
{
    let tidy = tidy(job.alloc, job.aig)?;
    let most = lower(job.alloc, job.aig, Width::Two)?.nors();
    let four = thrifty(job, &tidy, Width::Four, most)?;
    let two = thrifty(job, &tidy, Width::Two, most)?;
    Ok(shorter(four, two))
}

/// The program of the network of a graph of the same ports, with gates of at most so many operands, if it fits and has no more NORs
/// than `most`.
fn thrifty(job: &Job, aig: &Aig, width: Width, most: u32) -> Result<Option<Program>, NoMemory>
    requires inputs { aig.now.inputs ≡ job.now.aig.now.inputs }
    requires outputs { length aig.now.outputs ≡ length job.now.aig.now.outputs }
    ensures { IfOk result (IsBestOf aig.now job.now.ports.now most job.now.budget (if_few most (nors aig.now width))) }
{
    let network = lower(job.alloc, aig, width)?;
    if network.nors() > most {
        return Ok(None);
    }
    let fit = scheduled(job, &network)?;
    Ok(fit.program())
}

/// The program of a network of the same ports, or its need.
fn scheduled(job: &Job, network: &NorNet) -> Result<Fit, NoMemory>
    requires inputs { network.now.inputs ≡ job.now.aig.now.inputs }
    requires outputs { length network.now.outs ≡ length job.now.aig.now.outputs }
    ensures schedule { IfOk result (λ fit. IsScheduleOf network.now job.now.ports.now job.now.budget (program_of fit)) }
    ensures need { IfOk result (TellsNeed (needed_of network.now) (network.now.inputs + nor_count network.now.gates + 1) job.now.budget) }
{
    match schedule(job.alloc, network, job.ports, job.budget) {
        Ok(program) => Ok(Fit::Program(program)),
        Err(pim_simpler::Refusal::TooFewCells { needed }) => Ok(Fit::Needs(needed)),
        Err(pim_simpler::Refusal::NoMemory) => Err(NoMemory),
    }
}
