//! Sources and sinks that fail, and those of std.
use crate::case::{AND_NETLIST, AND_PROGRAM, Ending, FIVE, call_from, call_over, words_of};
use pim_io::{MemSink, MemSource, ReadSource, SliceSource, WriteSink};
use pim_top::{Status, pim};
use std::alloc::Global;
use std::test::Fail;

/// Compiles the AND one byte at a time, where these calls of the input and of the output fail.
fn compile_and(
    alloc: Global,
    input_failing: &[u64],
    output_failing: &[u64],
    room: usize,
) -> Result<Ending, Fail> {
    let mut program = SliceSource::new(b"");
    let mut input = MemSource::new(alloc, AND_NETLIST, 1, input_failing)?;
    let mut output = MemSink::new(alloc, room, 1, output_failing)?;
    call_from(alloc, FIVE, &mut program, &mut input, &mut output)
}

#[test]
fn a_failing_read_writes_nothing(rt: HostRuntime) -> Result<(), Fail> {
    for k in 0..27u64 {
        let ending = compile_and(rt.alloc(), &[k], &[], 4_096)?;
        assert_eq!(rt; ending.status, Status::ReadFault, "at read {k}");
        assert_eq!(rt; ending.output.as_slice(), b"".as_slice());
        assert_eq!(rt;
            ending.notes.as_slice(),
            b"pim: read fault: input\n".as_slice()
        );
    }
    let ending = compile_and(rt.alloc(), &[27], &[], 4_096)?;
    assert_eq!(rt; ending.status, Status::Done);
    assert_eq!(rt; ending.output.as_slice(), AND_PROGRAM);
    Ok(())
}

#[test]
fn a_failing_write_leaves_a_prefix(rt: HostRuntime) -> Result<(), Fail> {
    for k in 0..111usize {
        let failing = compile_and(rt.alloc(), &[], &[k as u64], 4_096)?;
        let full = compile_and(rt.alloc(), &[], &[], k)?;
        for ending in [&failing, &full] {
            assert_eq!(rt; ending.status, Status::WriteFault, "at write {k}");
            assert_eq!(rt; Some(ending.output.as_slice()), AND_PROGRAM.get(..k));
            assert_eq!(rt; ending.notes.as_slice(), b"pim: write fault\n".as_slice());
        }
    }
    Ok(())
}

#[test]
fn failing_notes_change_nothing(rt: HostRuntime) -> Result<(), Fail> {
    let alloc = rt.alloc();
    let words = ["compile", "--target", "magic", "--cells", "4"];
    let mut program = SliceSource::new(b"");
    let mut input = SliceSource::new(AND_NETLIST);
    let mut output = MemSink::new(alloc, 4_096, 4_096, &[])?;
    let mut notes = MemSink::new(alloc, 4_096, 4_096, &[0])?;
    let ending = call_over(
        alloc,
        &words,
        &mut program,
        &mut input,
        &mut output,
        &mut notes,
    )?;
    assert_eq!(rt; ending.status, Status::TooFewCells);
    assert_eq!(rt; ending.output.as_slice(), b"".as_slice());
    assert_eq!(rt; ending.notes.as_slice(), b"".as_slice());
    Ok(())
}

/// The readers and writers of std are sources and sinks.
#[test]
fn std_gives_sources_and_sinks(rt: HostRuntime) -> Result<(), Fail> {
    let alloc = rt.alloc();
    let words = words_of(alloc, FIVE)?;
    let mut program = ReadSource::new(b"".as_slice());
    let mut input = ReadSource::new(AND_NETLIST);
    let mut output = Vec::new(alloc);
    let mut notes = Vec::new(alloc);
    let status = pim(
        alloc,
        &words,
        &mut program,
        &mut input,
        &mut WriteSink::new(&mut output),
        &mut WriteSink::new(&mut notes),
    );
    assert_eq!(rt; status, Status::Done);
    assert_eq!(rt; output.as_slice(), AND_PROGRAM);
    assert_eq!(rt; notes.as_slice(), b"".as_slice());
    Ok(())
}
