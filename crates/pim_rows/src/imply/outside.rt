//! Sources and sinks that fail.
use super::{IMPLIED_AND, ZEROS};
use crate::case::{AND_NETLIST, call_from, stops};
use crate::run::repeated;
use pim_io::{MemSink, MemSource, SliceSource};
use pim_top::Status;
use std::test::Fail;

/// The source of the program fails in turn at each of its reads.
#[test]
fn a_program_is_not_read(rt: HostRuntime) -> Result<(), Fail> {
    let alloc = rt.alloc();
    for k in 0..IMPLIED_AND.len() as u64 + 1 {
        let mut program = MemSource::new(alloc, IMPLIED_AND, 1, &[k])?;
        let mut vectors = SliceSource::new(b"x\n");
        let mut output = MemSink::new(alloc, 4_096, 4_096, &[])?;
        let ending = call_from(alloc, ZEROS, &mut program, &mut vectors, &mut output)?;
        let text = "read fault: program";
        stops(&rt, alloc, &ending, Status::ReadFault, b"", text)?;
    }
    Ok(())
}

/// The source of vectors fails in turn at each of its reads; no tile is full.
#[test]
fn vectors_are_not_read(rt: HostRuntime) -> Result<(), Fail> {
    let alloc = rt.alloc();
    let bytes = b"00\n01\n10\n11\n";
    for k in 0..bytes.len() as u64 + 1 {
        let mut program = SliceSource::new(IMPLIED_AND);
        let mut vectors = MemSource::new(alloc, bytes, 1, &[k])?;
        let mut output = MemSink::new(alloc, 4_096, 4_096, &[])?;
        let ending = call_from(alloc, ZEROS, &mut program, &mut vectors, &mut output)?;
        let text = "read fault: input";
        stops(&rt, alloc, &ending, Status::ReadFault, b"", text)?;
    }
    Ok(())
}

/// The results of a full tile are written before a read behind it fails.
#[test]
fn a_tile_is_written_before_a_fault(rt: HostRuntime) -> Result<(), Fail> {
    let alloc = rt.alloc();
    let bytes = repeated(alloc, b"11\n", 4_099)?;
    let results = repeated(alloc, b"1\n", 4_096)?;
    let mut program = SliceSource::new(IMPLIED_AND);
    let mut vectors = MemSource::new(alloc, &bytes, 1, &[12_291])?;
    let mut output = MemSink::new(alloc, 9_000, 4_096, &[])?;
    let ending = call_from(alloc, ZEROS, &mut program, &mut vectors, &mut output)?;
    let text = "read fault: input";
    stops(&rt, alloc, &ending, Status::ReadFault, &results, text)
}

/// The source of a netlist fails in turn at each of its reads.
#[test]
fn a_netlist_is_not_read(rt: HostRuntime) -> Result<(), Fail> {
    let alloc = rt.alloc();
    for k in 0..AND_NETLIST.len() as u64 + 1 {
        let mut program = SliceSource::new(b"");
        let mut input = MemSource::new(alloc, AND_NETLIST, 1, &[k])?;
        let mut output = MemSink::new(alloc, 4_096, 4_096, &[])?;
        let words = ["imply", "--cells", "4"];
        let ending = call_from(alloc, &words, &mut program, &mut input, &mut output)?;
        let text = "read fault: input";
        stops(&rt, alloc, &ending, Status::ReadFault, b"", text)?;
    }
    Ok(())
}

/// An output that fails at some call has taken the front of the text, or of the results.
#[test]
fn a_failing_write_leaves_a_front(rt: HostRuntime) -> Result<(), Fail> {
    let alloc = rt.alloc();
    let results = b"0\n0\n0\n1\n";
    for k in [0, 1, results.len() - 1] {
        let front = results.get(..k).ok_or("a shorter front")?;
        let mut program = SliceSource::new(IMPLIED_AND);
        let mut vectors = SliceSource::new(b"00\n01\n10\n11\n");
        let mut output = MemSink::new(alloc, 4_096, 1, &[k as u64])?;
        let ending = call_from(alloc, ZEROS, &mut program, &mut vectors, &mut output)?;
        let text = "write fault";
        stops(&rt, alloc, &ending, Status::WriteFault, front, text)?;
    }
    Ok(())
}
