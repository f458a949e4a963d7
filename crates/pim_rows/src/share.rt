//! `share`: two ANDs in one row, files and turns that are refused, and sources and sinks that fail.
mod faults;
mod outside;
mod rows;

use crate::case::{AND_PROGRAM, Ending, call_from, call_on};
use pim_io::{MemSink, Source};
use std::alloc::Global;
use std::test::Fail;

/// The turns that let two programs of four instructions take part by part.
pub const IN_TURNS: &[u8] = b"0\n1\n0\n1\n0\n1\n0\n1\n";

/// The program that two ANDs become by these turns.
pub const TWO_ANDS: &[u8] =
    b"pim 1\ntarget magic\ncells 10\ninput 0 i0\ninput 1 i1\ninput 5 i0\ninput 6 i1\noutput 4 o0\noutput 9 o0\ncycles 8\ninit 2 3 4\ninit 7 8 9\nnot 2 1\nnot 7 6\nnot 3 0\nnot 8 5\nnor 4 2 3\nnor 9 7 8\nend\n";

/// Shares a row of so many cells, over a source of programs, a source of turns and an output.
fn share_over<P: Source, S: Source>(
    alloc: Global,
    cells: &str,
    programs: &mut P,
    turns: &mut S,
    output: &mut MemSink,
) -> Result<Ending, Fail> {
    let words = ["share", "programs", "--cells", cells];
    call_from(alloc, &words, programs, turns, output)
}

/// The same with ample room.
pub fn share(alloc: Global, cells: &str, programs: &[u8], turns: &[u8]) -> Result<Ending, Fail> {
    let words = ["share", "programs", "--cells", cells];
    call_on(alloc, &words, programs, turns)
}

/// The program of an AND, and these bytes behind it.
pub fn behind_an_and(alloc: Global, more: &[u8]) -> Result<Vec<u8>, Fail> {
    let mut bytes = Vec::from_slice(alloc, AND_PROGRAM)?;
    bytes.extend_from_slice(more)?;
    Ok(bytes)
}
