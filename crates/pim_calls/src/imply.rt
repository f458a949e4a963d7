//! The machine with `false` and `imp`.
ghost use Rattle.std.specs.Prelude.{◌≡◌, length, IfOk};

use pim_imply::{ImplyDraft, ImplyInstr, ImplyMachine, ImplyProgram};
use pim_io::NoMemory;
use pim_isa::Fill;
use std::alloc::Global;
use std::test::Fail;

/// The AND of the inputs in the cells 0 and 1 as the output `y` in cell 3.
pub(crate) fn imply_draft(alloc: Global) -> Result<ImplyDraft, NoMemory>
    ensures { IfOk result (λ draft. (length draft.inputs ≡ 2) × (length draft.outputs ≡ 1) × (length draft.instrs ≡ 5)) }
{
    let mut draft = ImplyDraft::new(alloc, 4);
    draft.add_input(0, b"a")?;
    draft.add_input(1, b"b")?;
    draft.add_output(3, b"y")?;
    draft.add(ImplyInstr::False(2))?;
    draft.add(ImplyInstr::Imp { p: 1, q: 2 })?;
    draft.add(ImplyInstr::Imp { p: 0, q: 2 })?;
    draft.add(ImplyInstr::False(3))?;
    draft.add(ImplyInstr::Imp { p: 2, q: 3 })?;
    Ok(draft)
}

/// The AND on all vectors, with either filling. The machine starts with other bits, and goes back to its start.
#[test]
fn runs_an_and(rt: HostRuntime) -> Result<(), Fail> {
    let program = ImplyProgram::new(imply_draft(rt.alloc())?)?;
    for (line, fill, out) in [
        (b"00", Fill::Ones, false),
        (b"01", Fill::Ones, false),
        (b"10", Fill::Zeros, false),
        (b"11", Fill::Zeros, true),
        (b"11", Fill::Ones, true),
    ] {
        let mut machine = ImplyMachine::load(rt.alloc(), &program, &[true, false], Fill::Zeros)?;
        machine.reload(line, fill);
        for _k in 0..5 {
            assert!(rt; machine.step());
        }
        assert!(rt; !machine.step());
        assert_eq!(rt; machine.cell(3), Some(out), "of {line:?}");
    }
    Ok(())
}
