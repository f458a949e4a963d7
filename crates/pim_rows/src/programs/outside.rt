//! Sources and sinks that fail.
use super::{BINARY, LISTING, LIVES};
use crate::case::{AND_PROGRAM, call_from, stops};
use pim_io::{MemSink, MemSource, SliceSource};
use pim_top::Status;
use std::test::Fail;

#[test]
fn a_program_is_not_read(rt: HostRuntime) -> Result<(), Fail> {
    let alloc = rt.alloc();
    let commands: [&'static [&'static str]; 3] = [
        &["list", "program"],
        &["explain", "program"],
        &["explain", "program", "--tree"],
    ];
    for words in commands {
        for k in 0..BINARY.len() as u64 + 1 {
            let mut program = MemSource::new(alloc, BINARY, 1, &[k])?;
            let mut input = SliceSource::new(b"");
            let mut output = MemSink::new(alloc, 4_096, 4_096, &[])?;
            let ending = call_from(alloc, words, &mut program, &mut input, &mut output)?;
            let text = "read fault: program";
            stops(&rt, alloc, &ending, Status::ReadFault, b"", text)?;
        }
    }
    Ok(())
}

#[test]
fn an_input_is_not_read(rt: HostRuntime) -> Result<(), Fail> {
    let alloc = rt.alloc();
    let commands: [(&'static [&'static str], &'static [u8]); 2] = [
        (&["asm"], LISTING),
        (&["convert", "--form", "1"], BINARY),
    ];
    for (words, bytes) in commands {
        for k in 0..bytes.len() as u64 + 1 {
            let mut program = SliceSource::new(b"");
            let mut input = MemSource::new(alloc, bytes, 1, &[k])?;
            let mut output = MemSink::new(alloc, 4_096, 4_096, &[])?;
            let ending = call_from(alloc, words, &mut program, &mut input, &mut output)?;
            let text = "read fault: input";
            stops(&rt, alloc, &ending, Status::ReadFault, b"", text)?;
        }
    }
    Ok(())
}

/// An output that fails at some call has taken the front of the text.
#[test]
fn a_failing_write_leaves_a_front(rt: HostRuntime) -> Result<(), Fail> {
    let alloc = rt.alloc();
    let commands: [(&'static [&'static str], &'static [u8]); 2] = [
        (&["list", "program"], LISTING),
        (&["explain", "program"], LIVES),
    ];
    for (words, text) in commands {
        for k in [0, 1, text.len() - 1] {
            let front = text.get(..k).ok_or("a shorter front")?;
            let mut program = SliceSource::new(AND_PROGRAM);
            let mut input = SliceSource::new(b"");
            let mut output = MemSink::new(alloc, 4_096, 1, &[k as u64])?;
            let ending = call_from(alloc, words, &mut program, &mut input, &mut output)?;
            stops(
                &rt,
                alloc,
                &ending,
                Status::WriteFault,
                front,
                "write fault",
            )?;
        }
    }
    Ok(())
}
