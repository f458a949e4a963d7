//! Netlists that become programs, and programs on vectors.
use super::{IMPLIED_AND, IMPLIED_XOR, ONES, ZEROS};
use crate::case::{AND_NETLIST, Case, XOR, call, call_within, check, gives};
use crate::run::repeated;
use pim_top::Status;
use std::test::Fail;

#[test]
fn netlists_are_compiled(rt: HostRuntime) -> Result<(), Fail> {
    let cases: [(&'static str, &'static [u8], &'static [u8]); 5] = [
        ("4", AND_NETLIST, IMPLIED_AND),
        ("1048576", AND_NETLIST, IMPLIED_AND),
        ("5", XOR, IMPLIED_XOR),
        (
            "1",
            b"aag 0 0 0 1 0\n0\n",
            b"imply 1\ncells 1\noutput 0 o0\ncycles 1\nfalse 0\nend\n",
        ),
        (
            "1",
            b"aag 1 1 0 1 0\n2\n2\n",
            b"imply 1\ncells 1\ninput 0 i0\noutput 0 o0\ncycles 0\nend\n",
        ),
    ];
    for (cells, netlist, program) in cases {
        let ending = call(rt.alloc(), &["imply", "--cells", cells], netlist, 7)?;
        gives(&rt, &ending, program);
    }
    Ok(())
}

/// A one is the complement of a zero, and takes a second cell.
#[test]
fn a_one_is_compiled(rt: HostRuntime) -> Result<(), Fail> {
    let ending = call(
        rt.alloc(),
        &["imply", "--cells", "2"],
        b"aag 0 0 0 1 0\n1\n",
        7,
    )?;
    let program = b"imply 1\ncells 2\noutput 1 o0\ncycles 3\nfalse 0\nfalse 1\nimp 0 1\nend\n";
    gives(&rt, &ending, program);
    Ok(())
}

#[test]
fn cells_are_too_few(rt: HostRuntime) -> Result<(), Fail> {
    check(
        &rt,
        rt.alloc(),
        &Case {
            words: &["imply", "--cells", "3"],
            input: AND_NETLIST,
            status: Status::TooFewCells,
            output: b"",
            note: b"pim: too few cells: needed 4\n",
        },
    )
}

/// Whatever the other cells hold.
#[test]
fn programs_are_run(rt: HostRuntime) -> Result<(), Fail> {
    let alloc = rt.alloc();
    for words in [ZEROS, ONES] {
        let ending = call_within(alloc, words, IMPLIED_XOR, b"00\n01\n10\n11\n", 64)?;
        gives(&rt, &ending, b"0\n1\n1\n0\n");
        let ending = call_within(alloc, words, IMPLIED_AND, b"00\r\n01\n10\n11", 64)?;
        gives(&rt, &ending, b"0\n0\n0\n1\n");
    }
    Ok(())
}

/// A cell that is never written shows the filling.
#[test]
fn a_filling_is_seen(rt: HostRuntime) -> Result<(), Fail> {
    let alloc = rt.alloc();
    let program = b"imply 1\ncells 2\ninput 0 a\noutput 1 f\noutput 0 g\ncycles 0\nend\n";
    let ending = call_within(alloc, ZEROS, program, b"1\n", 64)?;
    gives(&rt, &ending, b"01\n");
    let ending = call_within(alloc, ONES, program, b"0\n", 64)?;
    gives(&rt, &ending, b"10\n");
    Ok(())
}

#[test]
fn any_number_of_rows(rt: HostRuntime) -> Result<(), Fail> {
    let alloc = rt.alloc();
    for rows in [0, 1, 63, 64, 65, 4_097] {
        let vectors = repeated(alloc, b"11\n", rows)?;
        let results = repeated(alloc, b"1\n", rows)?;
        let ending = call_within(alloc, ZEROS, IMPLIED_AND, &vectors, 9_000)?;
        gives(&rt, &ending, &results);
    }
    Ok(())
}
