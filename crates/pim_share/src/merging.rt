//! One program from several.
ghost use Rattle.std.specs.Prelude.{◌≡◌, ◌⊎◌, ◌≤◌, ◌<◌, ◌^◌, ◌+◌, ◌++◌, length, All, IfErr, IfOk, IfSome, OnOk, None, Some, option_map};
ghost use Rattle.std.specs.List.{position};
ghost use Rattle.pim_io.specs.Readings.{Gives};
ghost use Rattle.pim_isa.specs.Sound.{IsProgram, IsSound};
ghost use Rattle.pim_share.specs.Moved.{moved_ports};
ghost use Rattle.pim_share.specs.Pieces.{AreFew};
ghost use Rattle.pim_share.specs.Merged.{differ, inputs_from, merge_of, merged, outputs_from, target_of};
ghost use Rattle.pim_share.specs.Merged.{turns_fault};
ghost use Rattle.pim_share.specs.Sharing.{IsShared, KeepsPrimed};
ghost use Rattle.pim_share.specs.Turns.{IsFair, after_turns, bad_turn, interleave, laid, missing};
ghost use Rattle.pim_share.specs.Windows.{needed};
ghost use Rattle.pim_share.specs.declared.fault.ShareFault.TheVariants as faults;

use crate::ShareFault;
use crate::parts::{Part, turn};
use pim_io::NoMemory;
use pim_isa::{MAX_CELLS, MAX_INSTRS, MAX_PORTS, Port, Program, ProgramDraft, Target};
use std::alloc::Global;

/// Whether two targets differ.
fn differ(a: Target, b: Target) -> bool
    ensures { result ≡ differ a b }
{
    match a {
        Target::Magic => matches!(b, Target::Plim),
        Target::Plim => matches!(b, Target::Magic),
    }
}

/// The first part whose target is not this one.
fn other_target(parts: &[Program], target: Target) -> Option<usize>
    ensures { result ≡ position (λ p. differ p.target target) parts.now }
{
    parts.iter().position(|part| differ(part.target(), target))
}

/// How many cells the parts have in all.
fn needed(parts: &[Program]) -> u64
    requires { length parts.now ≤ 2 ^ 24 }
    ensures value { result ≡ needed parts.now }
    ensures valid { All IsProgram parts.now }
{
    let mut cells = 0;
    for part in parts {
        cells += part.cells() as u64;
    }
    cells
}

/// The program that executes the parts in one row, each in its own window, in these turns. Linear in the parts, in the
/// turns and in the cells that the instructions name.
#[tactic(auto, using(crate::proofs::Shared::fair_judged))]
pub fn merge(
    alloc: Global,
    parts: &[Program],
    turns: &[u32],
    budget: u32,
) -> Result<Program, ShareFault>
    requires few_parts { AreFew parts.now }
    requires few_turns { length turns.now < 2 ^ 28 }
    requires small { budget ≤ MAX_CELLS }
    ensures exact { Gives ShareFault.NoMemory (λ program. program) result (merge_of parts.now turns.now budget) }

    // What executing the program leaves.
    ensures shared { IfOk result (IsShared parts.now) }
    ensures primed { IfOk result (KeepsPrimed parts.now) }

    // The turns are fair to the parts, and all fair turns will do.
    ensures fair { OnOk result (IsFair parts.now turns.now) }
    ensures all_fair { IsFair parts.now turns.now → turns_fault parts.now turns.now ≡ None }
{
    let target = parts[0].target();
    if let Some(part) = other_target(parts, target) {
        return Err(ShareFault::OtherTarget(part as u32));
    }
    let needed = needed(parts);
    if needed > budget as u64 {
        return Err(ShareFault::TooFewCells { needed });
    }
    let draft = merged(alloc, parts, turns, target, needed as u32)?;
    let program = checked(draft);
    program.primed_from_front();
    Ok(program)
}

/// The draft of the merged program, or what is wrong with the turns.
fn merged(
    alloc: Global,
    parts: &[Program],
    turns: &[u32],
    target: Target,
    cells: u32,
) -> Result<ProgramDraft, ShareFault>
    requires few_parts { length parts.now ≤ 2 ^ 24 }
    requires few_turns { length turns.now < 2 ^ 28 }
    requires target { target ≡ target_of parts.now }
    requires cells { cells ≡ needed parts.now }
    requires small { cells ≤ MAX_CELLS }
    ensures draft { IfOk result (λ draft. draft ≡ merged parts.now turns.now) }
    ensures ok { OnOk result (turns_fault parts.now turns.now ≡ None) }
    ensures err { IfErr result (λ fault. (fault ≡ ShareFault.NoMemory) ⊎ (turns_fault parts.now turns.now ≡ Some fault)) }
{
    let mut draft = ProgramDraft::new(alloc, target, cells);
    add_ports(&mut draft, parts)?;
    let mut left = laid(alloc, parts)?;
    add_turns(alloc, &mut draft, &mut left, turns)?;
    match missing(&left) {
        Some(part) => Err(ShareFault::Missing(part as u32)),
        None => Ok(draft),
    }
}

/// The first part of which something is left.
fn missing(left: &[Part]) -> Option<usize>
    ensures value { result ≡ missing left.now }
    ensures inside { IfSome result (λ j. j < length left.now) }
{
    left.iter().position(|part| part.is_left())
}

/// The program of a draft that is sound.
fn checked(draft: ProgramDraft) -> Program
    requires few_ports { length draft.inputs + length draft.outputs ≤ MAX_PORTS }
    requires few_instrs { length draft.instrs ≤ MAX_INSTRS }
    requires sound { IsSound draft }
    ensures { result ≡ draft }
{
    match Program::new(draft) {
        Ok(program) => program,
        Err(_) => unreachable!(),
    }
}

/// Adds the inputs and the outputs of the parts, each in its window.
fn add_ports(draft: &mut ProgramDraft, parts: &[Program]) -> Result<(), NoMemory>
    requires { needed parts.now ≤ MAX_CELLS }
    ensures { OnOk result (draft.new ≡ record draft.old {
      inputs = draft.old.inputs ++ inputs_from 0 parts.now;
      outputs = draft.old.outputs ++ outputs_from 0 parts.now;
    }) }
{
    let mut base = 0;
    for part in parts {
        add_inputs(draft, base, part.inputs())?;
        add_outputs(draft, base, part.outputs())?;
        base += part.cells();
    }
    Ok(())
}

/// Adds inputs with `base` added to their cells.
fn add_inputs(draft: &mut ProgramDraft, base: u32, ports: &[Port]) -> Result<(), NoMemory>
    requires { All (λ p. base + p.cell < 2 ^ 32) ports.now }
    ensures { OnOk result (draft.new ≡ record draft.old { inputs = draft.old.inputs ++ moved_ports base ports.now }) }
{
    for port in ports {
        draft.add_input(base + port.cell, port.label.bytes())?;
    }
    Ok(())
}

/// Adds outputs with `base` added to their cells.
fn add_outputs(draft: &mut ProgramDraft, base: u32, ports: &[Port]) -> Result<(), NoMemory>
    requires { All (λ p. base + p.cell < 2 ^ 32) ports.now }
    ensures { OnOk result (draft.new ≡ record draft.old { outputs = draft.old.outputs ++ moved_ports base ports.now }) }
{
    for port in ports {
        draft.add_output(base + port.cell, port.label.bytes())?;
    }
    Ok(())
}

/// The parts at the start, each with its window behind those before it.
fn laid<'a>(alloc: Global, parts: &'a [Program]) -> Result<Vec<Part<'a>>, NoMemory>
    requires { needed parts.now ≤ MAX_CELLS }
    ensures { IfOk result (λ v. v.items ≡ laid 0 parts.entry.now) }
{
    let mut left = Vec::new(alloc);
    let mut base = 0;
    for part in parts {
        left.push(Part::new(base, part))?;
        base += part.cells();
    }
    Ok(left)
}

/// Adds the instruction of each turn, or gives the first turn that has none.
fn add_turns(
    alloc: Global,
    draft: &mut ProgramDraft,
    left: &mut Vec<Part>,
    turns: &[u32],
) -> Result<(), ShareFault>
    requires { length turns.now < 2 ^ 28 }
    ensures ok { OnOk result (bad_turn 0 left.old.items turns.now ≡ None) }
    ensures err { IfErr result (λ fault. (fault ≡ ShareFault.NoMemory)
        ⊎ (option_map (λ k. faults.Turn k) (bad_turn 0 left.old.items turns.now) ≡ Some fault)) }
    ensures instrs { OnOk result (draft.new
        ≡ record draft.old { instrs = draft.old.instrs ++ interleave left.old.items turns.now }) }
    ensures left { OnOk result (left.new.items ≡ after_turns left.old.items turns.now) }
{
    for (k, j) in turns.iter().enumerate() {
        match turn(alloc, left, *j)? {
            Some(instr) => draft.add(instr)?,
            None => return Err(ShareFault::Turn(k as u32)),
        }
    }
    Ok(())
}
