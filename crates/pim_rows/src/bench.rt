//! `bench`: the adder of one bit, no source that is read, and a sink that fails.
use crate::case::{call_from, call_on, call_within, gives, stops};
use pim_io::{MemSink, MemSource};
use pim_top::Status;
use std::test::Fail;

/// The words for one bit.
pub const ONE_BIT: &[&str] = &["bench", "1"];

/// What is told of it.
pub const SUMMARY: &[u8] =
    b"bench 1 inputs 3 outputs 2 rows 262144\nwide cells 17 cycles 15 wrong 0\ntight cells 9 cycles 43 wrong 0\nplim cells 7 cycles 38 wrong 0\n";

/// Sources that fail at their first call make no difference.
#[test]
fn an_adder_of_one_bit(rt: HostRuntime) -> Result<(), Fail> {
    let alloc = rt.alloc();
    let mut program = MemSource::new(alloc, b"", 1, &[0])?;
    let mut input = MemSource::new(alloc, b"", 1, &[0])?;
    let mut output = MemSink::new(alloc, 256, 256, &[])?;
    let ending = call_from(alloc, ONE_BIT, &mut program, &mut input, &mut output)?;
    gives(&rt, &ending, SUMMARY);
    Ok(())
}

#[test]
fn words_are_judged(rt: HostRuntime) -> Result<(), Fail> {
    let alloc = rt.alloc();
    for bits in ["0", "65", "one"] {
        let ending = call_on(alloc, &["bench", bits], b"", b"")?;
        stops(&rt, alloc, &ending, Status::Usage, b"", "usage")?;
    }
    Ok(())
}

/// An output without room for the last byte has taken all the others.
#[test]
fn a_failing_write_leaves_a_front(rt: HostRuntime) -> Result<(), Fail> {
    let alloc = rt.alloc();
    let last = SUMMARY.len() - 1;
    let front = SUMMARY.get(..last).ok_or("a shorter front")?;
    let ending = call_within(alloc, ONE_BIT, b"", b"", last)?;
    let text = "write fault";
    stops(&rt, alloc, &ending, Status::WriteFault, front, text)
}
