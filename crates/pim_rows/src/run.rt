//! `run` from end to end: programs on vectors, files and lines that are refused, limits, and sources and sinks that fail.
mod files;
mod limits;
mod outside;
mod vectors;
mod words;

use std::alloc::Global;
use std::test::Fail;

/// The words that run a program, where all other cells hold zeros.
pub const ZEROS: &[&str] = &["run", "program", "--fill", "zeros"];

/// The same with ones.
pub const ONES: &[&str] = &["run", "program", "--fill", "ones"];

/// The same bytes so many times.
pub fn repeated(alloc: Global, piece: &[u8], times: usize) -> Result<Vec<u8>, Fail> {
    let mut bytes = Vec::new(alloc);
    for _ in 0..times {
        bytes.extend_from_slice(piece)?;
    }
    Ok(bytes)
}

/// The program of a two-input AND, with other cells than five and another last instruction.
fn and_file(alloc: Global, cells: &str, last: &str) -> Result<String, Fail> {
    let head = "pim 1\ntarget magic";
    let ports = "input 0 i0\ninput 1 i1\noutput 4 o0";
    let first = "init 2 3 4\nnot 2 1\nnot 3 0";
    let file = format!(in alloc;
        "{head}\ncells {cells}\n{ports}\ncycles 4\n{first}\n{last}\nend\n"
    )?;
    Ok(file)
}
