//! Lines and vectors from a reader.

use pim_io::{ReadSource, Source};
use pim_vectors::{Lines, LinesFault, vector_fits};
use std::process::Abort;
use std::test::Fail;

/// Asserts that this line is handed out next, or none.
fn assert_next<S: Source>(
    rt: &impl Abort,
    lines: &mut Lines,
    source: &mut S,
    line: Option<&[u8]>,
) -> Result<(), LinesFault> {
    assert_eq!(rt; lines.next(source)?, line);
    Ok(())
}

#[test]
fn lines_come_from_a_reader(rt: HostRuntime) -> Result<(), Fail> {
    let mut source = ReadSource::new(b"1\n0".as_slice());
    let mut lines = Lines::new(rt.alloc(), 1)?;
    assert_next(&rt, &mut lines, &mut source, Some(b"1".as_slice()))?;
    assert_next(&rt, &mut lines, &mut source, Some(b"0".as_slice()))?;
    assert_next(&rt, &mut lines, &mut source, None)?;
    Ok(())
}

#[test]
fn vectors_are_judged(rt: HostRuntime) {
    assert!(rt; vector_fits(b"101", 3));
    assert!(rt; vector_fits(b"", 0));
    assert!(rt; !vector_fits(b"101", 2));
    assert!(rt; !vector_fits(b"12", 2));
}
