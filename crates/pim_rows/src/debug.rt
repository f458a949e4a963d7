//! `debug`: the worked session on the AND, two breakpoints at one position, and what is refused.
use crate::case::{AND_PROGRAM, Ending, call_on, gives, stops};
use pim_top::Status;
use std::alloc::Global;
use std::process::Abort;
use std::test::Fail;

/// Debugs the AND by these lines.
pub fn debug(alloc: Global, lines: &[u8]) -> Result<Ending, Fail> {
    call_on(alloc, &["debug", "program"], AND_PROGRAM, lines)
}

/// These lines are refused after this output, as bad input of this detail.
fn refuses(
    rt: &impl Abort,
    alloc: Global,
    lines: &[u8],
    output: &[u8],
    detail: &str,
) -> Result<(), Fail> {
    let ending = debug(alloc, lines)?;
    let text = format!(in alloc; "bad input: {detail}")?;
    stops(rt, alloc, &ending, Status::BadInput, output, &text)
}

#[test]
fn goes_forward_and_back(rt: HostRuntime) -> Result<(), Fail> {
    let lines =
        b"11\nbreak 2\nrun\ncell 2\nstep 2\nshow\nback 1\ncell 4\ngoto 0\ncell 4\ndelete 0\nquit\n";
    let ending = debug(rt.alloc(), lines)?;
    let replies =
        b"break 0 at 2\nat 2\ncell 2 0\nat 4\n1\nat 3\ncell 4 1\nat 0\ncell 4 0\ndeleted 0\n";
    gives(&rt, &ending, replies);
    Ok(())
}

#[test]
fn two_breakpoints_at_one_position(rt: HostRuntime) -> Result<(), Fail> {
    let ending = debug(rt.alloc(), b"11\nbreak 1\nbreak 1\ndelete 0\nrun\nrun\n")?;
    let replies = b"break 0 at 1\nbreak 1 at 1\ndeleted 0\nat 1\nat 4\n";
    gives(&rt, &ending, replies);
    Ok(())
}

#[test]
fn refuses_what_is_no_command(rt: HostRuntime) -> Result<(), Fail> {
    let detail = "debug line 3: bad command";
    refuses(&rt, rt.alloc(), b"10\nstep\nstep 1 2\n", b"at 1\n", detail)
}

#[test]
fn refuses_a_number_that_is_not_set(rt: HostRuntime) -> Result<(), Fail> {
    let detail = "debug line 3: no such break 1";
    refuses(
        &rt,
        rt.alloc(),
        b"10\nbreak 4\ndelete 1\n",
        b"break 0 at 4\n",
        detail,
    )
}

#[test]
fn refuses_a_position_out_of_the_program(rt: HostRuntime) -> Result<(), Fail> {
    let detail = "debug line 3: out of program 7";
    refuses(&rt, rt.alloc(), b"11\ngoto 2\nstep 5\n", b"at 2\n", detail)
}

#[test]
fn refuses_a_cell_that_is_not_there(rt: HostRuntime) -> Result<(), Fail> {
    refuses(
        &rt,
        rt.alloc(),
        b"11\ncell 5\n",
        b"",
        "debug line 2: no such cell 5",
    )
}

#[test]
fn refuses_a_vector_that_is_too_short(rt: HostRuntime) -> Result<(), Fail> {
    refuses(&rt, rt.alloc(), b"1\nstep\n", b"", "vector line 1")
}
