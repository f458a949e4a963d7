//! Programs that share a row.
use super::{IN_TURNS, TWO_ANDS, behind_an_and, share};
use crate::case::{AND_PROGRAM, call_on, gives, stops};
use crate::run::{ONES, ZEROS};
use pim_top::Status;
use std::test::Fail;

#[test]
fn two_programs_take_turns(rt: HostRuntime) -> Result<(), Fail> {
    let alloc = rt.alloc();
    let programs = behind_an_and(alloc, AND_PROGRAM)?;
    for cells in ["10", "1048576"] {
        let ending = share(alloc, cells, &programs, IN_TURNS)?;
        gives(&rt, &ending, TWO_ANDS);
    }
    Ok(())
}

/// A program for itself stays as it is.
#[test]
fn one_program_has_all_turns(rt: HostRuntime) -> Result<(), Fail> {
    let ending = share(rt.alloc(), "5", AND_PROGRAM, b"0\n0\n0\n0\n")?;
    gives(&rt, &ending, AND_PROGRAM);
    Ok(())
}

/// Each program gives what it gives alone.
#[test]
fn the_shared_row_is_run(rt: HostRuntime) -> Result<(), Fail> {
    let alloc = rt.alloc();
    for words in [ZEROS, ONES] {
        let ending = call_on(alloc, words, TWO_ANDS, b"1101\n0111\n1111\n1000\n")?;
        gives(&rt, &ending, b"10\n01\n11\n00\n");
    }
    Ok(())
}

/// A line may end in a carriage return, a number may begin with zeros, and the last line may have no newline.
#[test]
fn turns_are_numbers(rt: HostRuntime) -> Result<(), Fail> {
    let alloc = rt.alloc();
    let programs = behind_an_and(alloc, AND_PROGRAM)?;
    let turns = b"0\r\n1\n00\n0000000001\n0\n1\r\n0\n1";
    let ending = share(alloc, "10", &programs, turns)?;
    gives(&rt, &ending, TWO_ANDS);
    Ok(())
}

#[test]
fn the_row_is_too_short(rt: HostRuntime) -> Result<(), Fail> {
    let alloc = rt.alloc();
    let programs = behind_an_and(alloc, AND_PROGRAM)?;
    let ending = share(alloc, "9", &programs, IN_TURNS)?;
    let text = "too few cells: needed 10";
    stops(&rt, alloc, &ending, Status::TooFewCells, b"", text)
}
