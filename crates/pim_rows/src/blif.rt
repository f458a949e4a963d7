//! BLIF from end to end: netlists with their programs, how lines are cut, every fault with its note, and the limits.
ghost use Rattle.std.specs.Prelude.{◌<◌};

mod directives;
mod faults;
mod limits;
mod lines;
mod netlists;
mod rows;

use crate::case::{Ending, call, gives, stops};
use pim_top::Status;
use std::alloc::Global;
use std::process::Abort;
use std::test::Fail;

/// Compiles a file to MAGIC with at most so many cells, where it comes in pieces of so many bytes.
fn compile(alloc: Global, cells: &str, input: &[u8], piece: usize) -> Result<Ending, Fail>
    requires { 0 < piece }
{
    call(
        alloc,
        &["compile", "--target", "magic", "--cells", cells],
        input,
        piece,
    )
}

/// A file that compiles to this program.
fn compiles(
    rt: &impl Abort,
    alloc: Global,
    cells: &str,
    input: &[u8],
    program: &[u8],
) -> Result<(), Fail> {
    let ending = compile(alloc, cells, input, 7)?;
    gives(rt, &ending, program);
    Ok(())
}

/// A call that ended with this status and this line in the notes, and with nothing written.
fn refuses(
    rt: &impl Abort,
    alloc: Global,
    ending: &Ending,
    status: Status,
    text: &str,
) -> Result<(), Fail> {
    stops(rt, alloc, ending, status, b"", text)
}

/// Files with a fault, and the detail that each note has to tell.
fn are_bad(rt: &impl Abort, alloc: Global, cases: &[(&[u8], &str)]) -> Result<(), Fail> {
    for (input, detail) in cases {
        let ending = compile(alloc, "9", input, 7)?;
        let text = format!(in alloc; "bad input: {detail}")?;
        refuses(rt, alloc, &ending, Status::BadInput, &text)?;
    }
    Ok(())
}

/// A file of inputs of these names, and of outputs that are the inputs of these numbers: no gate is wanted.
fn is_wires(
    rt: &impl Abort,
    alloc: Global,
    input: &[u8],
    inputs: &[&[u8]],
    outputs: &[usize],
) -> Result<(), Fail> {
    let mut program = Vec::new(alloc);
    let head = format!(in alloc; "pim 1\ntarget magic\ncells {}\n", inputs.len())?;
    program.extend_from_slice(head.as_bytes())?;
    for (cell, name) in inputs.iter().enumerate() {
        add_port(alloc, &mut program, "input", cell, name)?;
    }
    for cell in outputs {
        let name = inputs.get(*cell).copied().ok_or("no such input")?;
        add_port(alloc, &mut program, "output", *cell, name)?;
    }
    program.extend_from_slice(b"cycles 0\nend\n")?;
    compiles(rt, alloc, "9", input, &program)
}

/// The line of a port.
fn add_port(
    alloc: Global,
    program: &mut Vec<u8>,
    kind: &str,
    cell: usize,
    name: &[u8],
) -> Result<(), Fail> {
    let head = format!(in alloc; "{kind} {cell} ")?;
    program.extend_from_slice(head.as_bytes())?;
    program.extend_from_slice(name)?;
    program.push(b'\n')?;
    Ok(())
}
