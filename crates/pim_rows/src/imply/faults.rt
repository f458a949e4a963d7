//! Files and vectors that are refused.
use super::{IMPLIED_AND, ONES, ZEROS};
use crate::case::{AND_PROGRAM, Case, call_within, check, stops};
use crate::run::repeated;
use pim_top::Status;
use std::test::Fail;

#[test]
fn files_are_judged(rt: HostRuntime) -> Result<(), Fail> {
    let alloc = rt.alloc();
    let cases: [(&'static [u8], &'static str); 9] = [
        (b"", "imply truncated"),
        (AND_PROGRAM, "imply line 1"),
        (b"imply 1\ncells 05\n", "imply line 2"),
        (b"imply 1\ncells 2\ncycles 1\nimp 0 1\n", "imply truncated"),
        (b"imply 1\ncells 2\ncycles 0\nend\n\n", "imply line 5"),
        (
            b"imply 1\ncells 2\ninput 2 a\ncycles 0\nend\n",
            "imply port 0",
        ),
        (
            b"imply 1\ncells 2\ninput 0 a\ninput 0 b\ncycles 0\nend\n",
            "imply port 1",
        ),
        (
            b"imply 1\ncells 2\ncycles 2\nfalse 1\nimp 2 0\nend\n",
            "imply instruction 1 cell range",
        ),
        (
            b"imply 1\ncells 2\ncycles 1\nimp 1 1\nend\n",
            "imply instruction 0 same cell",
        ),
    ];
    for (file, detail) in cases {
        let ending = call_within(alloc, ZEROS, file, b"x\n", 64)?;
        let text = format!(in alloc; "bad input: {detail}")?;
        stops(&rt, alloc, &ending, Status::BadInput, b"", &text)?;
    }
    Ok(())
}

#[test]
fn a_program_has_too_many_cells(rt: HostRuntime) -> Result<(), Fail> {
    let alloc = rt.alloc();
    let file = b"imply 1\ncells 1048577\ncycles 0\nend\n";
    let ending = call_within(alloc, ZEROS, file, b"", 64)?;
    let text = "too large: cells";
    stops(&rt, alloc, &ending, Status::TooLarge, b"", text)
}

/// The results of a full tile are written before a line behind it is refused.
#[test]
fn a_line_is_no_vector(rt: HostRuntime) -> Result<(), Fail> {
    let alloc = rt.alloc();
    let mut vectors = repeated(alloc, b"11\n", 4_099)?;
    vectors.extend_from_slice(b"1\n")?;
    let results = repeated(alloc, b"1\n", 4_096)?;
    let ending = call_within(alloc, ZEROS, IMPLIED_AND, &vectors, 9_000)?;
    let text = "bad input: vector line 4100";
    stops(&rt, alloc, &ending, Status::BadInput, &results, text)?;
    for vectors in [b"11\n012\n".as_slice(), b"11\n2\n"] {
        let ending = call_within(alloc, ONES, IMPLIED_AND, vectors, 64)?;
        let text = "bad input: vector line 2";
        stops(&rt, alloc, &ending, Status::BadInput, b"", text)?;
    }
    Ok(())
}

/// The faults of a netlist are those of `compile`.
#[test]
fn netlists_are_judged(rt: HostRuntime) -> Result<(), Fail> {
    let cases: [(&'static [u8], &'static [u8]); 2] = [
        (b"aag 1 0 0 1 1\n2\n2 2 2\n", b"pim: bad input: cycle v1\n"),
        (
            b".model q\n.inputs x\n.outputs f\n.latch x f\n.end\n",
            b"pim: bad input: blif line 4: unsupported .latch\n",
        ),
    ];
    for (input, note) in cases {
        check(
            &rt,
            rt.alloc(),
            &Case {
                words: &["imply", "--cells", "9"],
                input,
                status: Status::BadInput,
                output: b"",
                note,
            },
        )?;
    }
    Ok(())
}
