//! Runs whose sources and sinks fail.
use super::{ONES, ZEROS, repeated};
use crate::case::{AND_PROGRAM, call_from, call_within, stops};
use pim_io::{MemSink, MemSource, SliceSource};
use pim_top::Status;
use std::test::Fail;

#[test]
fn a_program_is_not_read(rt: HostRuntime) -> Result<(), Fail> {
    let alloc = rt.alloc();
    for k in 0..AND_PROGRAM.len() as u64 + 1 {
        let mut program = MemSource::new(alloc, AND_PROGRAM, 1, &[k])?;
        let mut vectors = SliceSource::new(b"11\n");
        let mut output = MemSink::new(alloc, 64, 64, &[])?;
        let ending = call_from(alloc, ZEROS, &mut program, &mut vectors, &mut output)?;
        let text = "read fault: program";
        stops(&rt, alloc, &ending, Status::ReadFault, b"", text)?;
    }
    Ok(())
}

/// Vectors that come one byte at a time up to a fault: only full tiles are written before it.
#[test]
fn a_vector_is_not_read(rt: HostRuntime) -> Result<(), Fail> {
    let alloc = rt.alloc();
    let all = repeated(alloc, b"11\n", 4_099)?;
    for (call, written) in [
        (0, 0),
        (2, 0),
        (12_287, 0),
        (12_288, 4_096),
        (12_291, 4_096),
    ] {
        let mut program = SliceSource::new(AND_PROGRAM);
        let mut vectors = MemSource::new(alloc, &all, 1, &[call])?;
        let mut output = MemSink::new(alloc, 9_000, 4_096, &[])?;
        let ending = call_from(alloc, ZEROS, &mut program, &mut vectors, &mut output)?;
        let results = repeated(alloc, b"1\n", written)?;
        let text = "read fault: input";
        stops(&rt, alloc, &ending, Status::ReadFault, &results, text)?;
    }
    Ok(())
}

/// An output that fails at any call, or has too little room, has taken the front of the results.
#[test]
fn a_failing_write_leaves_a_prefix(rt: HostRuntime) -> Result<(), Fail> {
    let alloc = rt.alloc();
    let results: &[u8] = b"0\n0\n1\n";
    for k in 0..6usize {
        let front = results.get(..k).ok_or("a shorter front")?;
        for (room, failing) in [(64, k as u64), (k, 99)] {
            let mut program = SliceSource::new(AND_PROGRAM);
            let mut vectors = SliceSource::new(b"00\n01\n11\n");
            let mut output = MemSink::new(alloc, room, 1, &[failing])?;
            let ending = call_from(alloc, ONES, &mut program, &mut vectors, &mut output)?;
            let text = "write fault";
            stops(&rt, alloc, &ending, Status::WriteFault, front, text)?;
        }
    }
    Ok(())
}

/// Room for the results of a tile and no more.
#[test]
fn a_second_tile_is_not_written(rt: HostRuntime) -> Result<(), Fail> {
    let alloc = rt.alloc();
    let vectors = repeated(alloc, b"11\n", 4_097)?;
    let results = repeated(alloc, b"1\n", 4_096)?;
    let ending = call_within(alloc, ZEROS, AND_PROGRAM, &vectors, 8_192)?;
    let text = "write fault";
    stops(&rt, alloc, &ending, Status::WriteFault, &results, text)
}
