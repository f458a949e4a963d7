//! One program in all its spellings.
use super::{BINARY, LISTING, LIVES};
use crate::case::{AND_PROGRAM, call_on, gives};
use std::test::Fail;

#[test]
fn a_program_is_listed(rt: HostRuntime) -> Result<(), Fail> {
    let alloc = rt.alloc();
    for program in [AND_PROGRAM, BINARY] {
        let ending = call_on(alloc, &["list", "program"], program, b"not read")?;
        gives(&rt, &ending, LISTING);
    }
    Ok(())
}

#[test]
fn a_program_is_explained(rt: HostRuntime) -> Result<(), Fail> {
    let alloc = rt.alloc();
    for program in [AND_PROGRAM, BINARY] {
        let ending = call_on(alloc, &["explain", "program"], program, b"not read")?;
        gives(&rt, &ending, LIVES);
    }
    Ok(())
}

#[test]
fn a_listing_is_assembled(rt: HostRuntime) -> Result<(), Fail> {
    let ending = call_on(rt.alloc(), &["asm"], b"not read", LISTING)?;
    gives(&rt, &ending, AND_PROGRAM);
    Ok(())
}

#[test]
fn names_are_assembled(rt: HostRuntime) -> Result<(), Fail> {
    let text =
        b"; and gate\ntarget magic\ncells 5\nlet x 2\ninput 0 \"i0\"\ninput 1 \"i1\"\noutput 4 \"o0\"\ninit x 3 4\nnot x 1\nnot 3 0\nnor 4 x 3\n";
    let ending = call_on(rt.alloc(), &["asm"], b"", text)?;
    gives(&rt, &ending, AND_PROGRAM);
    Ok(())
}

#[test]
fn a_program_changes_its_form(rt: HostRuntime) -> Result<(), Fail> {
    let alloc = rt.alloc();
    for program in [AND_PROGRAM, BINARY] {
        let ending = call_on(alloc, &["convert", "--form", "2"], b"not read", program)?;
        gives(&rt, &ending, BINARY);
        let ending = call_on(alloc, &["convert", "--form", "1"], b"not read", program)?;
        gives(&rt, &ending, AND_PROGRAM);
    }
    Ok(())
}

#[test]
fn a_binary_program_is_run(rt: HostRuntime) -> Result<(), Fail> {
    let ending = call_on(rt.alloc(), &["run", "program"], BINARY, b"00\n01\n10\n11\n")?;
    gives(&rt, &ending, b"0\n0\n0\n1\n");
    Ok(())
}
