//! Tiles of programs with many outputs.
use super::{ZEROS, repeated};
use crate::case::{call_within, stops};
use pim_top::Status;
use std::alloc::Global;
use std::test::Fail;

/// An input that is so many outputs.
fn many_outputs(alloc: Global, count: usize) -> Result<Vec<u8>, Fail> {
    let mut program = Vec::from_slice(alloc, b"pim 1\ntarget magic\ncells 1\ninput 0 a\n")?;
    for _ in 0..count {
        program.extend_from_slice(b"output 0 f\n")?;
    }
    program.extend_from_slice(b"cycles 0\nend\n")?;
    Ok(program)
}

/// Before a wrong line 257 a tile of 256 rows is full where there are more than 65,536 outputs.
#[test]
fn many_outputs_make_small_tiles(rt: HostRuntime) -> Result<(), Fail> {
    let alloc = rt.alloc();
    let mut vectors = repeated(alloc, b"1\n", 256)?;
    vectors.extend_from_slice(b"11\n")?;
    for (outputs, written) in [(65_536usize, 0), (65_537, 256)] {
        let program = many_outputs(alloc, outputs)?;
        let mut line = vec![in alloc; b'1'; outputs]?;
        line.push(b'\n')?;
        let results = repeated(alloc, &line, written)?;
        let ending = call_within(alloc, ZEROS, &program, &vectors, 17_000_000)?;
        let text = "bad input: vector line 257";
        stops(&rt, alloc, &ending, Status::BadInput, &results, text)?;
    }
    Ok(())
}
