//! Files and turns that are refused.
use super::{IN_TURNS, behind_an_and, share};
use crate::case::{AND_PROGRAM, PLIM_AND, stops};
use pim_top::Status;
use std::alloc::Global;
use std::process::Abort;
use std::test::Fail;

/// An AND and these bytes behind it, by these turns in a row of ten cells, are refused as bad input of this detail.
fn refuses(
    rt: &impl Abort,
    alloc: Global,
    more: &[u8],
    turns: &[u8],
    detail: &str,
) -> Result<(), Fail> {
    let programs = behind_an_and(alloc, more)?;
    let ending = share(alloc, "10", &programs, turns)?;
    let text = format!(in alloc; "bad input: {detail}")?;
    stops(rt, alloc, &ending, Status::BadInput, b"", &text)
}

/// The second part is judged by itself, whatever the turns are.
#[test]
fn parts_are_judged(rt: HostRuntime) -> Result<(), Fail> {
    let cases: [(&'static [u8], &'static str); 5] = [
        (b"pim 1\n\n", "part 1 program line 2"),
        (b"pim 1\ntarget magic\n", "part 1 program truncated"),
        (b"\n", "part 1 program line 1"),
        (
            b"pim 1\ntarget magic\ncells 2\ncycles 1\ninit 2\nend\n",
            "part 1 program instruction 0 cell range",
        ),
        (
            b"pim 1\ntarget magic\ncells 2\ninput 2 a\ncycles 0\nend\n",
            "part 1 program port 0",
        ),
    ];
    for (more, detail) in cases {
        refuses(&rt, rt.alloc(), more, b"x\n", detail)?;
    }
    Ok(())
}

/// A file without bytes, and one in the binary form, are one part that is no program.
#[test]
fn the_first_part_is_judged(rt: HostRuntime) -> Result<(), Fail> {
    let alloc = rt.alloc();
    let cases: [(&'static [u8], &'static str); 3] = [
        (b"", "part 0 program truncated"),
        (b"pim2\n", "part 0 program line 1"),
        (b"end\n", "part 0 program line 1"),
    ];
    for (programs, detail) in cases {
        let ending = share(alloc, "10", programs, b"")?;
        let text = format!(in alloc; "bad input: {detail}")?;
        stops(&rt, alloc, &ending, Status::BadInput, b"", &text)?;
    }
    Ok(())
}

#[test]
fn a_part_has_too_many_cells(rt: HostRuntime) -> Result<(), Fail> {
    let alloc = rt.alloc();
    let more = b"pim 1\ntarget magic\ncells 1048577\ncycles 0\nend\n";
    let programs = behind_an_and(alloc, more)?;
    let ending = share(alloc, "10", &programs, b"x\n")?;
    let text = "too large: cells";
    stops(&rt, alloc, &ending, Status::TooLarge, b"", text)
}

/// The shape of all lines is judged before the targets.
#[test]
fn lines_are_judged(rt: HostRuntime) -> Result<(), Fail> {
    let cases: [(&'static [u8], &'static str); 6] = [
        (b"0\n\n1\n", "turn line 2"),
        (b"x\n", "turn line 1"),
        (b"0\n1 \n", "turn line 2"),
        (b"0\n1\n1\r", "turn line 3"),
        (b"4294967296\n", "turn line 1"),
        (b"9\n9\n-1\n", "turn line 3"),
    ];
    for (turns, detail) in cases {
        refuses(&rt, rt.alloc(), PLIM_AND, turns, detail)?;
    }
    Ok(())
}

#[test]
fn a_part_is_for_another_target(rt: HostRuntime) -> Result<(), Fail> {
    let alloc = rt.alloc();
    let detail = "part 1 other target";
    refuses(&rt, alloc, PLIM_AND, b"7\n", detail)?;
    let programs = behind_an_and(alloc, PLIM_AND)?;
    let ending = share(alloc, "7", &programs, b"7\n")?;
    let text = "bad input: part 1 other target";
    stops(&rt, alloc, &ending, Status::BadInput, b"", text)
}

/// A turn names no part, or one of which nothing is left; or turns of a part are missing.
#[test]
fn turns_are_judged(rt: HostRuntime) -> Result<(), Fail> {
    let cases: [(&'static [u8], &'static str); 5] = [
        (b"0\n1\n2\n1\n0\n1\n0\n1\n", "turn line 3"),
        (b"4294967295\n", "turn line 1"),
        (b"0\n0\n0\n0\n0\n1\n1\n1\n1\n", "turn line 5"),
        (b"0\n1\n0\n1\n0\n1\n0\n", "turns missing part 1"),
        (b"", "turns missing part 0"),
    ];
    for (turns, detail) in cases {
        refuses(&rt, rt.alloc(), AND_PROGRAM, turns, detail)?;
    }
    Ok(())
}

/// A wrong turn behind too few cells is not told of.
#[test]
fn cells_are_judged_before_turns(rt: HostRuntime) -> Result<(), Fail> {
    let alloc = rt.alloc();
    let programs = behind_an_and(alloc, AND_PROGRAM)?;
    let mut turns = Vec::from_slice(alloc, IN_TURNS)?;
    turns.extend_from_slice(b"9\n")?;
    let ending = share(alloc, "9", &programs, &turns)?;
    let text = "too few cells: needed 10";
    stops(&rt, alloc, &ending, Status::TooFewCells, b"", text)
}
