ghost use Rattle.std.specs.Prelude.{◌≡◌, ◌<◌, ◌≤◌, [], ◌∷◌, length, IfOk, IfErr, reverse};
ghost use Rattle.pim_net.specs.Faults.{back_to};
ghost use Rattle.pim_net.specs.Tables.{values};
ghost use Rattle.pim_net.specs.inner.DepthFirst.{ins, sig, mark, EachKnown, IsWired, IsStep, IsMarked, IsVisited, IsRound, trail_sigs};
ghost use Rattle.pim_net.specs.declared.search.Mark.TheVariants.{New};

use crate::driver::Driver;
use crate::search::{Frame, Mark, Step};
use crate::{Equation, NetFault, SignalTable, Signals};
use pim_io::NoMemory;
use std::alloc::Global;

/// Searches depth first from an equation that was not come to, until it has a depth, or until the search comes round to
/// its own trail. The path is empty before, and after a search that was done.
pub(crate) fn visit(
    alloc: Global,
    equations: &[Equation],
    table: &SignalTable<Driver>,
    marks: &mut Vec<Mark>,
    path: &mut Vec<Frame>,
    root: u32,
) -> Result<(), NetFault>
    requires wired { IsWired equations.now (values table.now) }
    requires marked { IsMarked equations.now (values table.now) marks.old.items [] }
    requires fresh { path.old.items ≡ [] }
    requires known { root < length equations.now }
    requires new { mark marks.old.items root ≡ New }
    ensures visited { IfOk result (λ _. IsVisited equations.now (values table.now) root marks.old.items marks.new.items) }
    ensures emptied { IfOk result (λ _. path.new.items ≡ []) }
    ensures round { IfErr result (IsRound equations.now (values table.now) root) }
{
    let mut at = Frame {
        equation: root,
        column: 0,
        depth: 0,
    };
    marks[root as usize] = Mark::Open;
    'walk: loop {
        match next(equations, table, marks.as_slice(), at) {
            Step::Done => {
                marks[at.equation as usize] = Mark::Deep(at.depth + 1);
                match path.pop() {
                    Some(parent) => at = parent,
                    None => return Ok(()),
                }
            }
            Step::Past(depth) => {
                at = Frame {
                    equation: at.equation,
                    column: at.column + 1,
                    depth: at.depth.max(depth),
                };
            }
            Step::Into(k) => {
                path.push(at)?;
                marks[k as usize] = Mark::Open;
                at = Frame {
                    equation: k,
                    column: 0,
                    depth: 0,
                };
            }
            Step::Round(k) => {
                let cycle = trail_back(alloc, equations, path, at, k)?;
                return Err(NetFault::Cycle(cycle));
            }
        }
    }
}

/// The signals of the trail from equation k on, or all where k is not on the trail. The path is used up.
fn trail_back(
    alloc: Global,
    equations: &[Equation],
    path: &mut Vec<Frame>,
    at: Frame,
    k: u32,
) -> Result<Signals, NoMemory>
    requires goal { k < length equations.now }
    requires known { EachKnown equations.now (at ∷ reverse path.old.items) }
    ensures { IfOk result
        (λ cycle. cycle ≡ reverse (back_to (sig equations.now k) (trail_sigs equations.now (at ∷ reverse path.old.items)))) }
{
    let mut list = Vec::new(alloc);
    let goal = equations[k as usize].sig;
    let mut last = equations[at.equation as usize].sig;
    list.push(last)?;
    'back: while last != goal {
        let Some(frame) = path.pop() else { break };
        last = equations[frame.equation as usize].sig;
        list.push(last)?;
    }
    list.reverse();
    Ok(Signals::new(list))
}

/// What the search meets next at a frame.
fn next(equations: &[Equation], table: &SignalTable<Driver>, marks: &[Mark], at: Frame) -> Step
    requires wired { IsWired equations.now (values table.now) }
    requires sized { length marks.now ≡ length equations.now }
    requires known { at.equation < length equations.now }
    requires within { at.column ≤ length (ins equations.now at.equation) }
    ensures { IsStep equations.now (values table.now) marks.now at result }
{
    let columns = equations[at.equation as usize].cover.ins();
    let column = at.column as usize;
    if column == columns.len() {
        return Step::Done;
    }
    match table.at(columns[column]) {
        Driver::Nobody => unreachable!(),
        Driver::Input(_) => Step::Past(0),
        Driver::Cover(k) => match marks[k as usize] {
            Mark::New => Step::Into(k),
            Mark::Open => Step::Round(k),
            Mark::Deep(depth) => Step::Past(depth),
        },
    }
}
