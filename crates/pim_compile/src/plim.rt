//! A graph becomes a PLiM program: above level 0 it is tidied, made one of majorities and, at level 2, rewritten; each of these graphs
//! is scheduled, and the shortest program is taken.
ghost use Rattle.std.specs.Prelude.{◌≡◌, ◌<◌, ◌≤◌, [], ◌∷◌, Bool, List, length, map, IfOk, IfSome};
ghost use Rattle.pim_aig.specs.Values.{aval};
ghost use Rattle.pim_aig.specs.declared.graph.TheConstants.{MAX_ANDS};
ghost use Rattle.pim_isa.specs.declared.target.Target.TheVariants as target_is;
ghost use Rattle.pim_mig.specs.Majs.{majs};
ghost use Rattle.pim_mig.specs.Values.{mval};
ghost use Rattle.pim_rm3.specs.Costs.{rm3_cost};
ghost use Rattle.pim_tidy.specs.Tidied.{tidied};
ghost use Rattle.pim_compile.specs.Networks.{coarse_of, need_of};
ghost use Rattle.pim_compile.specs.inner.Fits.{TellsNeed, program_of};
ghost use Rattle.pim_compile.specs.inner.Smart.{IsBaseOf, IsPlim, IsSmartest, IsSmartestAt, if_short};

use crate::Level;
use crate::fit::Fit;
use crate::job::Job;
use crate::shorter::shorter;
use pim_aig::Aig;
use pim_io::NoMemory;
use pim_isa::Program;
use pim_mig::{Mig, from_aig};
use pim_rewrite::rewrite;
use pim_rm3::{base, rm3_cost, smart};
use pim_tidy::tidy;
use std::alloc::Global;

/// The shortest of the schedules that a level tries, or the need of the graph as it is if none fits.
pub(crate) fn best(job: &Job, level: Level) -> Result<Fit, NoMemory>
    ensures fits { IfOk result (λ fit. IfSome (program_of fit) (IsPlim level job.now.aig.now job.now.ports.now job.now.budget)) }
    ensures need { IfOk result
        (TellsNeed (need_of job.now.aig.now target_is.Plim) (coarse_of job.now.aig.now target_is.Plim) job.now.budget) }
{
    let smart = smartest(job, level)?;
    let plain = plain(job)?;
    Ok(plain.beside(smart))
}

/// The schedule of a graph as it is, or its need.
fn plain(job: &Job) -> Result<Fit, NoMemory>
    ensures base { IfOk result (λ fit. IsBaseOf job.now.aig.now job.now.ports.now job.now.budget (program_of fit)) }
    ensures need { IfOk result
        (TellsNeed (need_of job.now.aig.now target_is.Plim) (coarse_of job.now.aig.now target_is.Plim) job.now.budget) }
{
    match base(job.alloc, job.aig, job.ports, job.budget) {
        Ok(program) => Ok(Fit::Program(program)),
        Err(pim_rm3::Refusal::TooFewCells { needed }) => Ok(Fit::Needs(needed)),
        Err(pim_rm3::Refusal::NoMemory) => Err(NoMemory),
    }
}

/// The shortest schedule of the majority graphs that a level makes, if one fits.
fn smartest(job: &Job, level: Level) -> Result<Option<Program>, NoMemory>
    ensures { IfOk result (IsSmartestAt level job.now.aig.now job.now.ports.now job.now.budget) }
{
    match level {
        Level::Zero => Ok(None),
        Level::One => {
            let most = rm3_cost(job.alloc, job.aig)?;
            let mig = majorities(job.alloc, job.aig)?;
            sparing(job, &mig, most)
        }
        Level::Two => {
            let most = rm3_cost(job.alloc, job.aig)?;
            let mig = majorities(job.alloc, job.aig)?;
            let rewritten = rewrite(job.alloc, &mig)?;
            let first = sparing(job, &rewritten, most)?;
            let second = sparing(job, &mig, most)?;
            Ok(shorter(first, second))
        }
    }
}

/// The majority graph of a graph's tidied form.
fn majorities(alloc: Global, aig: &Aig) -> Result<Mig, NoMemory>
    ensures majs { IfOk result (λ mig. mig ≡ majs (tidied aig.now)) }
    ensures values { IfOk result (λ mig. (bits : List Bool) → length bits ≡ aig.now.inputs
        → map (mval mig bits) mig.outputs ≡ map (aval aig.now bits) aig.now.outputs) }
    ensures few { IfOk result (λ mig. length mig.nodes ≤ MAX_ANDS) }
    ensures inputs { IfOk result (λ mig. mig.inputs ≡ aig.now.inputs) }
    ensures outputs { IfOk result (λ mig. length mig.outputs ≡ length aig.now.outputs) }
{
    let tidy = tidy(alloc, aig)?;
    from_aig(alloc, &tidy)
}

/// The schedule of a majority graph that computes what the graph does, if it fits and takes no more than `most` cycles.
fn sparing(job: &Job, mig: &Mig, most: u32) -> Result<Option<Program>, NoMemory>
    requires same { (bits : List Bool) → length bits ≡ mig.now.inputs
        → map (mval mig.now bits) mig.now.outputs ≡ map (aval job.now.aig.now bits) job.now.aig.now.outputs }
    requires most { most ≡ rm3_cost job.now.aig.now }
    requires inputs { mig.now.inputs ≡ job.now.aig.now.inputs }
    requires outputs { length mig.now.outputs ≡ length job.now.aig.now.outputs }
    ensures { IfOk result (IsSmartest job.now.aig.now job.now.ports.now job.now.budget (mig.now ∷ [])) }
{
    match smart(job.alloc, mig, job.ports, job.budget) {
        Ok(program) => Ok(if_short(program, most)),
        Err(pim_rm3::SmartFault::Unfit { .. }) => Ok(None),
        Err(pim_rm3::SmartFault::NoMemory) => Err(NoMemory),
    }
}

/// A program, if it takes no more than `most` cycles.
fn if_short(program: Program, most: u32) -> Option<Program>
    ensures { result ≡ if_short most program }
{
    if program.instrs().len() > most as usize {
        None
    } else {
        Some(program)
    }
}
