//! `explain --tree`: the line on the graph of a program's NORs.
use super::{BINARY, LIVES};
use crate::case::{AND_PROGRAM, XOR_PROGRAM, call_on, gives, stops};
use pim_top::Status;
use std::test::Fail;

const WORDS: &[&str] = &["explain", "program", "--tree"];

#[test]
fn the_tree_of_a_program_is_told(rt: HostRuntime) -> Result<(), Fail> {
    let alloc = rt.alloc();
    let mut text = Vec::from_slice(alloc, LIVES)?;
    text.extend_from_slice(b"tree yes gates 3 cu 3 peak 3 own 3\n")?;
    for program in [AND_PROGRAM, BINARY] {
        let ending = call_on(alloc, WORDS, program, b"not read")?;
        gives(&rt, &ending, &text);
    }
    Ok(())
}

/// The line of a program stands behind the lives of its cells, which are told without it too.
#[test]
fn the_line_is_the_last(rt: HostRuntime) -> Result<(), Fail> {
    let alloc = rt.alloc();
    let empty = b"pim 1\ntarget magic\ncells 1\ncycles 0\nend\n";
    let cases: [(&'static [u8], &'static [u8]); 2] = [
        (XOR_PROGRAM, b"tree yes gates 6 cu 3 peak 3 own 3\n"),
        (empty, b"tree no gates 0 peak 0 own 0\n"),
    ];
    for (program, line) in cases {
        let mut text = call_on(alloc, &["explain", "program"], program, b"")?.output;
        text.extend_from_slice(line)?;
        let ending = call_on(alloc, WORDS, program, b"")?;
        gives(&rt, &ending, &text);
    }
    Ok(())
}

/// A program for PLiM has no such graph; without the word it is explained.
#[test]
fn a_program_is_not_for_magic(rt: HostRuntime) -> Result<(), Fail> {
    let alloc = rt.alloc();
    let program = b"pim 1\ntarget plim\ncells 1\noutput 0 f\ncycles 1\nrm3 #1 #0 @0\nend\n";
    let ending = call_on(alloc, WORDS, program, b"")?;
    let text = "bad input: program is not magic";
    stops(&rt, alloc, &ending, Status::BadInput, b"", text)?;
    let ending = call_on(alloc, &["explain", "program"], program, b"")?;
    gives(&rt, &ending, b"cell 0: 0..out\ncells 1 cycles 1\n");
    Ok(())
}

/// The faults of the file come first.
#[test]
fn a_file_is_judged_before_its_target(rt: HostRuntime) -> Result<(), Fail> {
    let alloc = rt.alloc();
    let ending = call_on(alloc, WORDS, b"pim 1\ntarget plim\n", b"")?;
    let text = "bad input: program truncated";
    stops(&rt, alloc, &ending, Status::BadInput, b"", text)
}
