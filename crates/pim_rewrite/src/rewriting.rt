ghost use Rattle.std.specs.Prelude.{◌≡◌, ◌<◌, ◌≤◌, true, false, None, length, IfOk, IfSome};
ghost use Rattle.pim_mig.specs.Needs.{needed_count};
ghost use Rattle.pim_rewrite.specs.Cases.{distribute, has_case};
ghost use Rattle.pim_rewrite.specs.Normal.{AreUpright, HasValues, IsNormal};
ghost use Rattle.pim_rewrite.specs.Passes.{copy, flip};
ghost use Rattle.pim_rewrite.specs.Rewritten.{rewritten, rounds};

use crate::cases::has_case;
use crate::passes::{Pass, make};
use crate::reading::Reading;
use pim_io::NoMemory;
use pim_mig::{Mig, nodes_have_laws};
use std::alloc::Global;

/// The most nodes of a graph that is rewritten: as many as an and-inverter graph has AND nodes.
pub const MAX_REWRITTEN: u32 = pim_aig::MAX_ANDS;

/// The rewritten graph: complements move to the readers, so that at most one operand of each node is complemented, and majorities
/// that share two operands give these to one, as long as there are such. Each output keeps its value, the graph is in normal form,
/// and no more nodes are needed than before. Each pass over the graph takes expected linear time; there are two for each round, and
/// each round leaves fewer needed nodes, so there are at most as many rounds as nodes, and few in most graphs.
pub fn rewrite(alloc: Global, mig: &Mig) -> Result<Mig, NoMemory>
    requires { length mig.now.nodes ≤ MAX_REWRITTEN }
    ensures rewritten { IfOk result (λ new. new ≡ rewritten mig.now) }
    ensures inputs { IfOk result (λ new. new.inputs ≡ mig.now.inputs) }
    ensures values { IfOk result (λ new. HasValues mig.now new) }
    ensures normal { IfOk result IsNormal }
    ensures no_more { IfOk result (λ new. needed_count new ≤ needed_count mig.now) }
{
    let first = flip(alloc, mig)?;
    let last = settle(alloc, first, mig.nodes().len())?;
    copy(alloc, &last)
}

/// While a needed node has a case, a distribution pass and a flip pass, at most so many times.
fn settle(alloc: Global, mig: Mig, most: usize) -> Result<Mig, NoMemory>
    requires few { needed_count mig ≤ MAX_REWRITTEN }
    requires enough { needed_count mig ≤ most }
    requires upright { AreUpright mig.nodes }
    ensures rounds { IfOk result (λ new. new ≡ rounds most mig) }
    ensures inputs { IfOk result (λ new. new.inputs ≡ mig.inputs) }
    ensures values { IfOk result (λ new. HasValues mig new) }
    ensures no_more { IfOk result (λ new. needed_count new ≤ needed_count mig) }
    ensures upright { IfOk result (λ new. AreUpright new.nodes) }
    ensures settled { IfOk result (λ new. has_case new ≡ false) }
{
    let mut now = mig;
    let mut left = most;
    while left > 0 {
        match one_round(alloc, &now)? {
            None => return Ok(now),
            Some(next) => now = next,
        }
        left -= 1;
    }
    Ok(now)
}

/// A distribution pass and a flip pass, if a needed node has a case.
fn one_round(alloc: Global, mig: &Mig) -> Result<Option<Mig>, NoMemory>
    requires few { needed_count mig.now ≤ MAX_REWRITTEN }
    ensures none { IfOk result (λ next. next ≡ None → has_case mig.now ≡ false) }
    ensures case { IfOk result (λ next. IfSome next (λ _. has_case mig.now ≡ true)) }
    ensures round { IfOk result (λ next. IfSome next (λ new. new ≡ flip (distribute mig.now))) }
    ensures values { IfOk result (λ next. IfSome next (λ new. HasValues mig.now new)) }
    ensures fewer { IfOk result (λ next. IfSome next (λ new. needed_count new < needed_count mig.now)) }
    ensures upright { IfOk result (λ next. IfSome next (λ new. AreUpright new.nodes)) }
{
    let reading = Reading::of(alloc, mig)?;
    if !has_case(&reading) {
        return Ok(None);
    }
    let spread = distribute(alloc, &reading)?;
    let new = flip(alloc, &spread)?;
    Ok(Some(new))
}

/// The distribution pass over a graph in which a needed node has a case.
fn distribute(alloc: Global, reading: &Reading) -> Result<Mig, NoMemory>
    requires few { needed_count reading.now ≤ MAX_REWRITTEN }
    requires case { has_case reading.now ≡ true }
    ensures distributed { IfOk result (λ new. new ≡ distribute reading.now) }
    ensures values { IfOk result (λ new. HasValues reading.now new) }
    ensures fewer { IfOk result (λ new. needed_count new < needed_count reading.now) }
{
    nodes_have_laws();
    let _ = reading.nodes();
    let new = make(alloc, reading, Pass::Distribute)?;
    Ok(new)
}

/// The flip pass.
fn flip(alloc: Global, mig: &Mig) -> Result<Mig, NoMemory>
    requires few { needed_count mig.now ≤ MAX_REWRITTEN }
    ensures flipped { IfOk result (λ new. new ≡ flip mig.now) }
    ensures values { IfOk result (λ new. HasValues mig.now new) }
    ensures no_more { IfOk result (λ new. needed_count new ≤ needed_count mig.now) }
    ensures upright { IfOk result (λ new. AreUpright new.nodes) }
{
    nodes_have_laws();
    let _ = mig.nodes();
    let reading = Reading::of(alloc, mig)?;
    let new = make(alloc, &reading, Pass::Flip)?;
    Ok(new)
}

/// The copy of the needed nodes of a graph that is in normal form but for those that are not needed.
fn copy(alloc: Global, mig: &Mig) -> Result<Mig, NoMemory>
    requires few { needed_count mig.now ≤ MAX_REWRITTEN }
    requires upright { AreUpright mig.now.nodes }
    requires settled { has_case mig.now ≡ false }
    ensures copied { IfOk result (λ new. new ≡ copy mig.now) }
    ensures values { IfOk result (λ new. HasValues mig.now new) }
    ensures no_more { IfOk result (λ new. needed_count new ≤ needed_count mig.now) }
    ensures normal { IfOk result IsNormal }
{
    nodes_have_laws();
    let _ = mig.nodes();
    let reading = Reading::of(alloc, mig)?;
    let new = make(alloc, &reading, Pass::Copy)?;
    let _ = new.nodes();
    Ok(new)
}
