//! Bytes that are refused.
use super::BINARY;
use crate::case::{AND_PROGRAM, call_on, stops};
use pim_top::Status;
use std::test::Fail;

/// A program file is judged alike by each command that reads one.
#[test]
fn files_are_judged(rt: HostRuntime) -> Result<(), Fail> {
    let alloc = rt.alloc();
    let cases: [(&'static [u8], &'static str); 4] = [
        (b"pim 2\n", "line 1"),
        (b"pim 1\n", "truncated"),
        (b"pim2\n\x02", "byte 5"),
        (b"pim2\n\x00", "truncated"),
    ];
    let commands: [&'static [&'static str]; 3] = [
        &["list", "program"],
        &["explain", "program"],
        &["explain", "program", "--tree"],
    ];
    for (file, detail) in cases {
        let text = format!(in alloc; "bad input: program {detail}")?;
        for words in commands {
            let ending = call_on(alloc, words, file, b"")?;
            stops(&rt, alloc, &ending, Status::BadInput, b"", &text)?;
        }
        let ending = call_on(alloc, &["convert", "--form", "1"], b"", file)?;
        stops(&rt, alloc, &ending, Status::BadInput, b"", &text)?;
    }
    Ok(())
}

/// In place of the number of cells, which is 5, a longer spelling of it and one more than a program may have.
#[test]
fn the_cells_of_a_binary_program_are_judged(rt: HostRuntime) -> Result<(), Fail> {
    let alloc = rt.alloc();
    let words = ["convert", "--form", "1"];
    let head = BINARY.get(..6).ok_or("a shorter file")?;
    let tail = BINARY.get(7..).ok_or("a shorter file")?;
    let mut longer = Vec::from_slice(alloc, head)?;
    longer.extend_from_slice(b"\x85\x00")?;
    longer.extend_from_slice(tail)?;
    let ending = call_on(alloc, &words, b"", &longer)?;
    let text = "bad input: program byte 7";
    stops(&rt, alloc, &ending, Status::BadInput, b"", text)?;
    let mut larger = Vec::from_slice(alloc, head)?;
    larger.extend_from_slice(b"\x81\x80\x40")?;
    larger.extend_from_slice(tail)?;
    let ending = call_on(alloc, &words, b"", &larger)?;
    stops(
        &rt,
        alloc,
        &ending,
        Status::TooLarge,
        b"",
        "too large: cells",
    )
}

#[test]
fn assembly_is_judged(rt: HostRuntime) -> Result<(), Fail> {
    let alloc = rt.alloc();
    let cases: [(&'static [u8], &'static str); 6] = [
        (b"", "assembly line 1"),
        (
            b"target magic\ncells 5\n; first\ncells 5\n",
            "assembly line 4",
        ),
        (
            b"target magic\ncells 5\nnot y 1\n",
            "assembly name in line 3",
        ),
        (
            b"target magic\ncells 2\nlet x 0\nlet x 1\n",
            "assembly name in line 4",
        ),
        (
            b"target magic\ncells 2\ninit\n",
            "program instruction 0 init list",
        ),
        (b"target magic\ncells 2\ninput 2 \"a\"\n", "program port 0"),
    ];
    for (input, detail) in cases {
        let text = format!(in alloc; "bad input: {detail}")?;
        let ending = call_on(alloc, &["asm"], AND_PROGRAM, input)?;
        stops(&rt, alloc, &ending, Status::BadInput, b"", &text)?;
    }
    Ok(())
}
