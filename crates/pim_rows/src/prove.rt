//! `prove`: programs that give a netlist's outputs, the first difference, what is refused, and sources and sinks that fail.
use crate::case::{AND_NETLIST, AND_PROGRAM, Ending, XOR, call, call_from, call_on, gives, stops};
use pim_io::{MemSink, MemSource, SliceSource};
use pim_top::Status;
use std::alloc::Global;
use std::test::Fail;

/// The words of the command.
const WORDS: &[&str] = &["prove", "program"];

/// The program of the exclusive or, in five cells.
const XOR_IN_FIVE: &[u8] =
    b"pim 1\ntarget magic\ncells 5\ninput 0 a\ninput 1 b\noutput 2 f\ncycles 10\ninit 2 3 4\nnot 2 0\nnor 3 2 1\nnot 4 1\ninit 2\nnor 2 0 4\ninit 4\nnor 4 3 2\ninit 2 3\nnot 2 4\nend\n";

/// A NOR whose target was never set.
const ONE_NOR: &[u8] =
    b"pim 1\ntarget magic\ncells 3\ninput 0 a\ninput 1 b\noutput 2 f\ncycles 1\nnor 2 0 1\nend\n";

/// A cell that no instruction writes.
const UNSET: &[u8] = b"pim 1\ntarget magic\ncells 1\noutput 0 f\ncycles 0\nend\n";

/// A one without inputs.
const ONE: &[u8] = b"pim 1\ntarget magic\ncells 1\noutput 0 f\ncycles 1\ninit 0\nend\n";

/// Compares a program with a netlist.
pub fn prove(alloc: Global, program: &[u8], netlist: &[u8]) -> Result<Ending, Fail> {
    call_on(alloc, WORDS, program, netlist)
}

#[test]
fn a_program_is_equal(rt: HostRuntime) -> Result<(), Fail> {
    let alloc = rt.alloc();
    gives(&rt, &prove(alloc, XOR_IN_FIVE, XOR)?, b"equal 4\n");
    gives(&rt, &prove(alloc, AND_PROGRAM, AND_NETLIST)?, b"equal 4\n");
    gives(
        &rt,
        &prove(alloc, ONE, b"aag 0 0 0 1 0\n1\n")?,
        b"equal 1\n",
    );
    Ok(())
}

/// The least vector is told, and the first output. Without inputs the vector has no bits.
#[test]
fn a_program_differs(rt: HostRuntime) -> Result<(), Fail> {
    let alloc = rt.alloc();
    let ending = prove(alloc, AND_PROGRAM, XOR)?;
    let text = "unequal 01 output 0";
    stops(&rt, alloc, &ending, Status::Unequal, b"", text)?;
    let ending = prove(alloc, ONE, b"aag 0 0 0 1 0\n0\n")?;
    let text = "unequal  output 0";
    stops(&rt, alloc, &ending, Status::Unequal, b"", text)
}

#[test]
fn a_cell_is_unset(rt: HostRuntime) -> Result<(), Fail> {
    let alloc = rt.alloc();
    let ending = prove(alloc, ONE_NOR, XOR)?;
    let text = "bad input: program instruction 0 uses unset cell 2";
    stops(&rt, alloc, &ending, Status::BadInput, b"", text)?;
    let ending = prove(alloc, UNSET, b"aag 0 0 0 1 0\n0\n")?;
    let text = "bad input: program output 0 is unset";
    stops(&rt, alloc, &ending, Status::BadInput, b"", text)
}

/// A full adder in nine cells has other ports than the exclusive or.
#[test]
fn ports_differ(rt: HostRuntime) -> Result<(), Fail> {
    let alloc = rt.alloc();
    let adder =
        b".model fa\n.inputs a b cin\n.outputs s co\n.names a b cin s\n100 1\n010 1\n001 1\n111 1\n.names a b cin co\n11- 1\n1-1 1\n-11 1\n.end\n";
    let words = ["compile", "--target", "magic", "--cells", "9"];
    let program = call(alloc, &words, adder, 7)?.output;
    gives(&rt, &prove(alloc, &program, adder)?, b"equal 8\n");
    let ending = prove(alloc, &program, XOR)?;
    let text = "bad input: ports differ";
    stops(&rt, alloc, &ending, Status::BadInput, b"", text)
}

/// Twenty-one inputs are too many, whatever the instructions are.
#[test]
fn inputs_are_limited(rt: HostRuntime) -> Result<(), Fail> {
    let alloc = rt.alloc();
    let mut program = Vec::from_slice(alloc, b"pim 1\ntarget magic\ncells 21\n")?;
    let mut netlist = Vec::from_slice(alloc, b"aag 21 21 0 0 0\n")?;
    for cell in 0..21u32 {
        let port = format!(in alloc; "input {cell} i{cell}\n")?;
        program.extend_from_slice(port.as_bytes())?;
        let literal = format!(in alloc; "{}\n", 2 * cell + 2)?;
        netlist.extend_from_slice(literal.as_bytes())?;
    }
    program.extend_from_slice(b"cycles 0\nend\n")?;
    let ending = prove(alloc, &program, &netlist)?;
    let text = "too large: inputs";
    stops(&rt, alloc, &ending, Status::TooLarge, b"", text)
}

/// The program file is judged first, then the netlist.
#[test]
fn bytes_are_judged(rt: HostRuntime) -> Result<(), Fail> {
    let alloc = rt.alloc();
    let ending = prove(alloc, b"pim 1\n", b"aag 1\n")?;
    let text = "bad input: program truncated";
    stops(&rt, alloc, &ending, Status::BadInput, b"", text)?;
    let ending = prove(alloc, ONE_NOR, b"aag 1\n")?;
    let text = "bad input: aiger header";
    stops(&rt, alloc, &ending, Status::BadInput, b"", text)
}

/// Each source fails in turn at each of its reads.
#[test]
fn a_source_is_not_read(rt: HostRuntime) -> Result<(), Fail> {
    let alloc = rt.alloc();
    for k in 0..AND_PROGRAM.len() as u64 + 1 {
        let mut program = MemSource::new(alloc, AND_PROGRAM, 1, &[k])?;
        let mut input = SliceSource::new(b"aag 1\n");
        let mut output = MemSink::new(alloc, 64, 64, &[])?;
        let ending = call_from(alloc, WORDS, &mut program, &mut input, &mut output)?;
        let text = "read fault: program";
        stops(&rt, alloc, &ending, Status::ReadFault, b"", text)?;
    }
    for k in 0..AND_NETLIST.len() as u64 + 1 {
        let mut program = SliceSource::new(AND_PROGRAM);
        let mut input = MemSource::new(alloc, AND_NETLIST, 1, &[k])?;
        let mut output = MemSink::new(alloc, 64, 64, &[])?;
        let ending = call_from(alloc, WORDS, &mut program, &mut input, &mut output)?;
        let text = "read fault: input";
        stops(&rt, alloc, &ending, Status::ReadFault, b"", text)?;
    }
    Ok(())
}

#[test]
fn a_failing_write_leaves_a_front(rt: HostRuntime) -> Result<(), Fail> {
    let alloc = rt.alloc();
    let line = b"equal 4\n";
    for k in 0..line.len() {
        let front = line.get(..k).ok_or("a shorter front")?;
        let mut program = SliceSource::new(AND_PROGRAM);
        let mut input = SliceSource::new(AND_NETLIST);
        let mut output = MemSink::new(alloc, 64, 1, &[k as u64])?;
        let ending = call_from(alloc, WORDS, &mut program, &mut input, &mut output)?;
        let text = "write fault";
        stops(&rt, alloc, &ending, Status::WriteFault, front, text)?;
    }
    Ok(())
}
