//! Sessions of the debugger.

use crate::and::and_draft;
use pim_debug::{DebugFault, Reply, Session, Stop};
use pim_isa::{Fill, Program};
use std::alloc::Global;
use std::process::Abort;
use std::test::Fail;

/// An answer in words.
fn told(alloc: Global, answer: &Result<Reply, DebugFault>) -> Result<String, Fail> {
    Ok(format!(in alloc; "{answer:?}")?)
}

/// Lines, and what a session answers to each.
fn obeys(
    rt: &impl Abort,
    alloc: Global,
    session: &mut Session,
    lines: &[(&'static str, &'static str)],
) -> Result<(), Fail> {
    for (line, wanted) in lines {
        let answer = session.command(line.as_bytes());
        assert_eq!(rt; told(alloc, &answer)?.as_str(), *wanted, "at {line}");
    }
    Ok(())
}

#[test]
fn goes_forward_and_back(rt: HostRuntime) -> Result<(), Fail> {
    let alloc = rt.alloc();
    let program = Program::new(and_draft(alloc)?)?;
    let mut session = Session::new(alloc, &program, &[true, true], Fill::Zeros)?;
    obeys(
        &rt,
        alloc,
        &mut session,
        &[
            ("", "Ok(Nothing)"),
            ("break 2", "Ok(Break { number: 0, at: 2 })"),
            ("run", "Ok(At(2))"),
            ("cell 2", "Ok(Cell(2, false))"),
            (" step\t2\r", "Ok(At(4))"),
            ("show", "Ok(Show(Bits { bits: [true] }))"),
            ("back 3", "Ok(At(1))"),
        ],
    )?;
    for cell in 0..5u32 {
        assert_eq!(rt; session.cell(cell), Some(true));
    }
    obeys(
        &rt,
        alloc,
        &mut session,
        &[
            ("goto 0", "Ok(At(0))"),
            ("delete 0", "Ok(Deleted(0))"),
            ("cell 4", "Ok(Cell(4, false))"),
            ("run", "Ok(At(4))"),
            ("quit", "Ok(Quit)"),
        ],
    )
}

#[test]
fn two_breakpoints_at_one_position(rt: HostRuntime) -> Result<(), Fail> {
    let alloc = rt.alloc();
    let program = Program::new(and_draft(alloc)?)?;
    let mut session = Session::new(alloc, &program, &[true, false], Fill::Ones)?;
    obeys(
        &rt,
        alloc,
        &mut session,
        &[
            ("break 1", "Ok(Break { number: 0, at: 1 })"),
            ("break 1", "Ok(Break { number: 1, at: 1 })"),
        ],
    )?;
    let stops = [Stop { number: 0, at: 1 }, Stop { number: 1, at: 1 }];
    assert_eq!(rt; session.breakpoints()?.as_slice(), stops.as_slice());
    obeys(
        &rt,
        alloc,
        &mut session,
        &[
            ("delete 0", "Ok(Deleted(0))"),
            ("run", "Ok(At(1))"),
            ("run", "Ok(At(4))"),
        ],
    )
}
