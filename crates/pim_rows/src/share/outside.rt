//! Sources and sinks that fail.
use super::{IN_TURNS, TWO_ANDS, behind_an_and, share_over};
use crate::case::{AND_PROGRAM, gives, stops};
use pim_io::{MemSink, MemSource, SliceSource};
use pim_top::Status;
use std::test::Fail;

/// The source of programs fails in turn at each of its reads.
#[test]
fn programs_are_not_read(rt: HostRuntime) -> Result<(), Fail> {
    let alloc = rt.alloc();
    let bytes = behind_an_and(alloc, AND_PROGRAM)?;
    for k in 0..bytes.len() as u64 + 1 {
        let mut programs = MemSource::new(alloc, &bytes, 1, &[k])?;
        let mut turns = SliceSource::new(b"x\n");
        let mut output = MemSink::new(alloc, 4_096, 4_096, &[])?;
        let ending = share_over(alloc, "10", &mut programs, &mut turns, &mut output)?;
        let text = "read fault: program";
        stops(&rt, alloc, &ending, Status::ReadFault, b"", text)?;
    }
    Ok(())
}

/// The source of turns fails in turn at each of its reads.
#[test]
fn turns_are_not_read(rt: HostRuntime) -> Result<(), Fail> {
    let alloc = rt.alloc();
    let bytes = behind_an_and(alloc, AND_PROGRAM)?;
    for k in 0..IN_TURNS.len() as u64 + 1 {
        let mut programs = SliceSource::new(&bytes);
        let mut turns = MemSource::new(alloc, IN_TURNS, 1, &[k])?;
        let mut output = MemSink::new(alloc, 4_096, 4_096, &[])?;
        let ending = share_over(alloc, "10", &mut programs, &mut turns, &mut output)?;
        let text = "read fault: input";
        stops(&rt, alloc, &ending, Status::ReadFault, b"", text)?;
    }
    Ok(())
}

/// An output that fails at some call, or has no more room, has taken the front of the text.
#[test]
fn a_failing_write_leaves_a_front(rt: HostRuntime) -> Result<(), Fail> {
    let alloc = rt.alloc();
    let bytes = behind_an_and(alloc, AND_PROGRAM)?;
    for k in [0, 1, TWO_ANDS.len() - 1] {
        let front = TWO_ANDS.get(..k).ok_or("a shorter front")?;
        for (room, failing) in [(4_096, k as u64), (k, 4_096)] {
            let mut programs = SliceSource::new(&bytes);
            let mut turns = SliceSource::new(IN_TURNS);
            let mut output = MemSink::new(alloc, room, 1, &[failing])?;
            let ending = share_over(alloc, "10", &mut programs, &mut turns, &mut output)?;
            let text = "write fault";
            stops(&rt, alloc, &ending, Status::WriteFault, front, text)?;
        }
    }
    Ok(())
}

/// Pieces of one byte make no difference.
#[test]
fn bytes_come_one_by_one(rt: HostRuntime) -> Result<(), Fail> {
    let alloc = rt.alloc();
    let bytes = behind_an_and(alloc, AND_PROGRAM)?;
    let mut programs = MemSource::new(alloc, &bytes, 1, &[])?;
    let mut turns = MemSource::new(alloc, IN_TURNS, 1, &[])?;
    let mut output = MemSink::new(alloc, 4_096, 1, &[])?;
    let ending = share_over(alloc, "10", &mut programs, &mut turns, &mut output)?;
    gives(&rt, &ending, TWO_ANDS);
    Ok(())
}
