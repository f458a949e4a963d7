ghost use Rattle.std.specs.Prelude.{◌≡◌, ◌+◌, length, IfOk, OnOk};

use pim_io::NoMemory;
use pim_isa::{Cells, Ins, Instr, ProgramDraft, Target};
use std::alloc::Global;

/// The AND of the inputs `a` and `b` in the cells 0 and 1, as the output `y` in cell 4: an Init of the cells 2 to 4, and three NORs.
pub(crate) fn and_draft(alloc: Global) -> Result<ProgramDraft, NoMemory>
    ensures cells { IfOk result (λ draft. draft.cells ≡ 5) }
    ensures inputs { IfOk result (λ draft. length draft.inputs ≡ 2) }
    ensures outputs { IfOk result (λ draft. length draft.outputs ≡ 1) }
    ensures instrs { IfOk result (λ draft. length draft.instrs ≡ 4) }
{
    let mut cells = Cells::new(alloc);
    cells.push(2)?;
    cells.push(3)?;
    cells.push(4)?;
    let mut draft = ports_draft(alloc)?;
    draft.add(Instr::Init(cells))?;
    add_gates(&mut draft)?;
    Ok(draft)
}

/// The ports alone.
fn ports_draft(alloc: Global) -> Result<ProgramDraft, NoMemory>
    ensures cells { IfOk result (λ draft. draft.cells ≡ 5) }
    ensures inputs { IfOk result (λ draft. length draft.inputs ≡ 2) }
    ensures outputs { IfOk result (λ draft. length draft.outputs ≡ 1) }
    ensures instrs { IfOk result (λ draft. length draft.instrs ≡ 0) }
{
    let mut draft = ProgramDraft::new(alloc, Target::Magic, 5);
    draft.add_input(0, b"a")?;
    draft.add_input(1, b"b")?;
    draft.add_output(4, b"y")?;
    Ok(draft)
}

/// Adds the three NORs.
fn add_gates(draft: &mut ProgramDraft) -> Result<(), NoMemory>
    ensures cells { OnOk result (draft.new.cells ≡ draft.old.cells) }
    ensures inputs { OnOk result (draft.new.inputs ≡ draft.old.inputs) }
    ensures outputs { OnOk result (draft.new.outputs ≡ draft.old.outputs) }
    ensures instrs { OnOk result (length draft.new.instrs ≡ length draft.old.instrs + 3) }
{
    draft.add(Instr::Nor {
        t: 2,
        ins: Ins::One(1),
    })?;
    draft.add(Instr::Nor {
        t: 3,
        ins: Ins::One(0),
    })?;
    draft.add(Instr::Nor {
        t: 4,
        ins: Ins::Two(2, 3),
    })
}
