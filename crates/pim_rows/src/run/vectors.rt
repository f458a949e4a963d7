//! What programs give for vectors, and lines that are no vectors.
use super::{ONES, ZEROS, and_file, repeated};
use crate::case::{AND_PROGRAM, PLIM_AND, call_within, gives, stops};
use pim_top::Status;
use std::test::Fail;

/// A cover that says where the output is zero: at the first bit without the last, and at the last two.
const OFF_SET: &[u8] =
    b"pim 1\ntarget magic\ncells 6\ninput 0 a\ninput 1 b\ninput 2 c\noutput 3 f\ncycles 9\ninit 3 4 5\nnot 3 1\nnot 4 2\nnor 5 3 4\ninit 3 4\nnot 3 0\nnor 4 3 2\ninit 3\nnor 3 4 5\nend\n";

/// A full adder by NOR gates of up to four operands.
const FULL_ADDER: &[u8] =
    b"pim 1\ntarget magic\ncells 11\ninput 0 a\ninput 1 b\ninput 2 cin\noutput 6 s\noutput 4 co\ncycles 17\ninit 3 4 5 6 7 8 9 10\nnot 3 0\nnot 4 1\nnot 5 2\nnor 6 3 4 5\nnor 7 3 1 2\nnor 8 0 4 2\nnor 9 0 1 5\nnor 10 7 8 9 6\ninit 6 7 8 9\nnot 6 10\nnor 7 3 4\nnor 8 3 5\nnor 9 4 5\ninit 3 4 5 10\nnor 3 7 8 9\nnot 4 3\nend\n";

/// A constant without inputs.
const ONE: &[u8] = b"pim 1\ntarget magic\ncells 1\noutput 0 f\ncycles 1\ninit 0\nend\n";

/// A cell that no instruction writes.
const UNSET: &[u8] = b"pim 1\ntarget magic\ncells 1\noutput 0 f\ncycles 0\nend\n";

/// An input and no output.
const NOTHING: &[u8] = b"pim 1\ntarget magic\ncells 1\ninput 0 a\ncycles 0\nend\n";

#[test]
fn programs_give_results(rt: HostRuntime) -> Result<(), Fail> {
    let cases: [(&'static [u8], &'static [u8], &'static [u8]); 8] = [
        (
            OFF_SET,
            b"000\n001\n010\n011\n100\n101\n110\n111\n",
            b"1\n1\n1\n0\n0\n1\n0\n0\n",
        ),
        (PLIM_AND, b"00\n01\n10\n11\n", b"0\n0\n0\n1\n"),
        (
            FULL_ADDER,
            b"000\n100\n110\n111\n001\n",
            b"00\n10\n01\n11\n10\n",
        ),
        (ONE, b"\n\n\n", b"1\n1\n1\n"),
        (NOTHING, b"0\n1\n", b"\n\n"),
        (AND_PROGRAM, b"11\r\n01\r\n", b"1\n0\n"),
        (AND_PROGRAM, b"10\n11", b"0\n1\n"),
        (AND_PROGRAM, b"", b""),
    ];
    for (program, vectors, results) in cases {
        for words in [ZEROS, ONES] {
            let ending = call_within(rt.alloc(), words, program, vectors, 64)?;
            gives(&rt, &ending, results);
        }
    }
    Ok(())
}

#[test]
fn cells_that_are_no_inputs_are_filled(rt: HostRuntime) -> Result<(), Fail> {
    let zeros = call_within(rt.alloc(), ZEROS, UNSET, b"\n\n", 64)?;
    gives(&rt, &zeros, b"0\n0\n");
    let ones = call_within(rt.alloc(), ONES, UNSET, b"\n\n", 64)?;
    gives(&rt, &ones, b"1\n1\n");
    Ok(())
}

/// Vectors up to a number that a word or a tile has, and one more or less: each row has a result of its own.
#[test]
fn each_row_has_its_result(rt: HostRuntime) -> Result<(), Fail> {
    let alloc = rt.alloc();
    let vectors = repeated(alloc, b"00\n01\n11\n11\n10\n", 820)?;
    let results = repeated(alloc, b"0\n0\n1\n1\n0\n", 820)?;
    for rows in [0, 1, 63, 64, 65, 4_095, 4_096, 4_097usize] {
        let first = vectors.get(..3 * rows).ok_or("too few vectors")?;
        let wanted = results.get(..2 * rows).ok_or("too few results")?;
        for words in [ZEROS, ONES] {
            let ending = call_within(alloc, words, AND_PROGRAM, first, 9_000)?;
            gives(&rt, &ending, wanted);
        }
    }
    Ok(())
}

#[test]
fn lines_that_are_no_vectors(rt: HostRuntime) -> Result<(), Fail> {
    let alloc = rt.alloc();
    let cases: [(&'static [u8], &'static [u8], &'static str); 7] = [
        (AND_PROGRAM, b"1\n", "bad input: vector line 1"),
        (AND_PROGRAM, b"11\n\n", "bad input: vector line 2"),
        (AND_PROGRAM, b"11\n012\n", "bad input: vector line 2"),
        (AND_PROGRAM, b"12\n", "bad input: vector line 1"),
        (AND_PROGRAM, b"1 1\n", "bad input: vector line 1"),
        (AND_PROGRAM, b"11\r", "bad input: vector line 1"),
        (ONE, b"\n1\n", "bad input: vector line 2"),
    ];
    for (program, vectors, text) in cases {
        let ending = call_within(alloc, ZEROS, program, vectors, 64)?;
        stops(&rt, alloc, &ending, Status::BadInput, b"", text)?;
    }
    Ok(())
}

#[test]
fn a_line_is_too_long(rt: HostRuntime) -> Result<(), Fail> {
    let alloc = rt.alloc();
    let mut vectors = Vec::from_slice(alloc, b"11\n")?;
    let long = vec![in alloc; b'1'; 300]?;
    vectors.extend_from_slice(&long)?;
    vectors.push(b'\n')?;
    let ending = call_within(alloc, ZEROS, AND_PROGRAM, &vectors, 64)?;
    let text = "bad input: vector line 2";
    stops(&rt, alloc, &ending, Status::BadInput, b"", text)
}

/// Before a wrong line the rows of full tiles are written: of 4,096 rows, and of 256 where there are many cells.
#[test]
fn a_wrong_line_leaves_full_tiles(rt: HostRuntime) -> Result<(), Fail> {
    let alloc = rt.alloc();
    let wide = and_file(alloc, "65537", "nor 4 2 3")?;
    for (program, good, written, text) in [
        (AND_PROGRAM, 4_099, 4_096, "bad input: vector line 4100"),
        (wide.as_bytes(), 256, 256, "bad input: vector line 257"),
        (wide.as_bytes(), 255, 0, "bad input: vector line 256"),
    ] {
        let mut vectors = repeated(alloc, b"11\n", good)?;
        vectors.extend_from_slice(b"1\n")?;
        let results = repeated(alloc, b"1\n", written)?;
        let ending = call_within(alloc, ZEROS, program, &vectors, 9_000)?;
        stops(&rt, alloc, &ending, Status::BadInput, &results, text)?;
    }
    Ok(())
}

/// One line more than a run may have.
#[test]
fn the_rows_are_limited(rt: HostRuntime) -> Result<(), Fail> {
    let alloc = rt.alloc();
    let tile = repeated(alloc, b"11\n", 4_096)?;
    let mut vectors = repeated(alloc, &tile, 256)?;
    vectors.extend_from_slice(b"11\n")?;
    let tile = repeated(alloc, b"1\n", 4_096)?;
    let results = repeated(alloc, &tile, 256)?;
    let ending = call_within(alloc, ZEROS, AND_PROGRAM, &vectors, 2_100_000)?;
    let text = "too large: rows";
    stops(&rt, alloc, &ending, Status::TooLarge, &results, text)
}
