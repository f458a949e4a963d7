//! Program files that `run` refuses, and files of many cells.
use super::{ZEROS, and_file};
use crate::case::{AND_PROGRAM, call_within, gives, stops};
use pim_top::Status;
use std::test::Fail;

#[test]
fn files_are_judged(rt: HostRuntime) -> Result<(), Fail> {
    let alloc = rt.alloc();
    let cases: [(&'static str, &'static str, &'static str); 9] = [
        ("05", "nor 4 2 3", "line 3"),
        ("5", "nor 4  2 3", "line 11"),
        ("5", "nor 4 2 3\nend", "line 13"),
        ("5", "end\nnor 4 2 3", "line 11"),
        ("4", "nor 3 2 1", "port 2"),
        ("5", "nor 4 4 3", "instruction 3 reads its target"),
        ("5", "nor 4 2 5", "instruction 3 cell range"),
        ("5", "rm3 #0 #1 @4", "instruction 3 wrong target"),
        ("5", "init 4 4", "instruction 3 init list"),
    ];
    for (cells, last, detail) in cases {
        let file = and_file(alloc, cells, last)?;
        let text = format!(in alloc; "bad input: program {detail}")?;
        let ending = call_within(alloc, ZEROS, file.as_bytes(), b"", 64)?;
        stops(&rt, alloc, &ending, Status::BadInput, b"", &text)?;
    }
    Ok(())
}

/// However a file is cut, it is known to lack its end.
#[test]
fn cut_files_are_truncated(rt: HostRuntime) -> Result<(), Fail> {
    let alloc = rt.alloc();
    for len in 0..AND_PROGRAM.len() {
        let cut = AND_PROGRAM.get(..len).ok_or("a shorter file")?;
        let ending = call_within(alloc, ZEROS, cut, b"11\n", 64)?;
        let text = "bad input: program truncated";
        stops(&rt, alloc, &ending, Status::BadInput, b"", text)?;
    }
    Ok(())
}

#[test]
fn the_cells_are_limited(rt: HostRuntime) -> Result<(), Fail> {
    let alloc = rt.alloc();
    let wide = and_file(alloc, "65537", "nor 4 2 3")?;
    let ending = call_within(alloc, ZEROS, wide.as_bytes(), b"", 64)?;
    gives(&rt, &ending, b"");
    let widest = and_file(alloc, "1048576", "nor 4 2 3")?;
    let ending = call_within(alloc, ZEROS, widest.as_bytes(), b"11\n", 64)?;
    gives(&rt, &ending, b"1\n");
    let wider = and_file(alloc, "1048577", "nor 4 2 3")?;
    let ending = call_within(alloc, ZEROS, wider.as_bytes(), b"11\n", 64)?;
    let text = "too large: cells";
    stops(&rt, alloc, &ending, Status::TooLarge, b"", text)
}
