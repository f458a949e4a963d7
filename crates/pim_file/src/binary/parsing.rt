ghost use Rattle.std.specs.Prelude.{◌≡◌, ◌≤◌, length, IsTrue};
ghost use Rattle.pim_io.specs.Readings.{Gives};
ghost use Rattle.pim_io.specs.declared.limits.TheConstants.{MAX_PROGRAM};
ghost use Rattle.pim_file.specs.Items.{counted, many};
ghost use Rattle.pim_file.specs.BinaryReading.{is_binary, port_at, instr_at};
ghost use Rattle.pim_file.specs.inner.BinaryKept.{with_inputs, with_outputs, with_instrs, kept_with, kept_at, draft_within_limit, program2_within_limit};

use crate::binary::items::Items;
use crate::fault::FileFault;
use crate::kept::Kept;
use pim_isa::{Program, ProgramDraft};
use std::alloc::Global;

/// Whether bytes begin as the binary form does.
pub(crate) fn has_tag(bytes: &[u8]) -> bool
    ensures tag { result ≡ is_binary bytes.now }
    ensures long { IsTrue result → 5 ≤ length bytes.now }
{
    bytes.starts_with(b"pim2\n")
}

/// The program that bytes are the binary form of, or the first fault. Linear in the bytes.
pub(crate) fn parse_binary(alloc: Global, bytes: &[u8]) -> Result<Program, FileFault>
    requires tag { IsTrue (is_binary bytes.now) }
    requires long { 5 ≤ length bytes.now }
    requires short { length bytes.now ≤ MAX_PROGRAM }
    ensures { Gives FileFault.NoMemory (λ program. program) result (program2_within_limit bytes.now) }
{
    let draft = draft(alloc, bytes)?;
    Ok(Program::new(draft)?)
}

/// The draft of a binary program file, not checked yet.
#[tactic(auto, unfolding(crate::specs::inner::BinaryKept::draft_within_limit))]
fn draft(alloc: Global, bytes: &[u8]) -> Result<ProgramDraft, FileFault>
    requires long { 5 ≤ length bytes.now }
    requires short { length bytes.now ≤ MAX_PROGRAM }
    ensures { Gives FileFault.NoMemory (λ draft. draft) result (draft_within_limit bytes.now) }
{
    let mut items = Items::new(bytes, 5);
    let kept = kept(alloc, &mut items)?;
    if !items.rest().is_empty() {
        return Err(FileFault::Byte(items.place()));
    }
    kept.into_draft()
}

/// What is kept of a draft, up to its last instruction.
#[tactic(auto, unfolding(crate::specs::inner::BinaryKept::kept_at, crate::specs::Items::counted))]
fn kept(alloc: Global, items: &mut Items) -> Result<Kept, FileFault>
    ensures { Gives FileFault.NoMemory (λ kept. (kept, items.new)) result (kept_at items.old) }
{
    let target = items.target()?;
    let cells = items.number()?;
    let mut kept = Kept::begun(alloc, target, cells);
    let inputs = items.number()?;
    add_inputs(&mut kept, items, inputs)?;
    let outputs = items.number()?;
    add_outputs(&mut kept, items, outputs)?;
    let instrs = items.number()?;
    add_instrs(alloc, &mut kept, items, instrs)?;
    Ok(kept)
}

/// Adds that many inputs. Linear in their labels.
fn add_inputs(kept: &mut Kept, items: &mut Items, count: u32) -> Result<(), FileFault>
    ensures { Gives FileFault.NoMemory (λ _. (kept.new, items.new)) result
        (kept_with with_inputs kept.old (many port_at count items.old)) }
{
    for _ in 0..count {
        let port = items.port()?;
        kept.add_input(port)?;
    }
    Ok(())
}

/// Adds that many outputs. Linear in their labels.
fn add_outputs(kept: &mut Kept, items: &mut Items, count: u32) -> Result<(), FileFault>
    ensures { Gives FileFault.NoMemory (λ _. (kept.new, items.new)) result
        (kept_with with_outputs kept.old (many port_at count items.old)) }
{
    for _ in 0..count {
        let port = items.port()?;
        kept.add_output(port)?;
    }
    Ok(())
}

/// Adds that many instructions. Linear in their numbers.
fn add_instrs(
    alloc: Global,
    kept: &mut Kept,
    items: &mut Items,
    count: u32,
) -> Result<(), FileFault>
    ensures { Gives FileFault.NoMemory (λ _. (kept.new, items.new)) result
        (kept_with with_instrs kept.old (many instr_at count items.old)) }
{
    for _ in 0..count {
        let instr = items.instr(alloc)?;
        kept.add(instr)?;
    }
    Ok(())
}
