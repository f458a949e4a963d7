//! The limit of a name, 4,096 bytes; and words and patterns, which have none.
use super::{compile, refuses};
use pim_top::Status;
use std::alloc::Global;
use std::test::Fail;

/// A file of this text, a word of so many letters, and more text.
fn with_long_word(
    alloc: Global,
    before: &[u8],
    letters: usize,
    behind: &[u8],
) -> Result<Vec<u8>, Fail> {
    let mut bytes = Vec::from_slice(alloc, before)?;
    let word = vec![in alloc; b'x'; letters]?;
    bytes.extend_from_slice(&word)?;
    bytes.extend_from_slice(behind)?;
    Ok(bytes)
}

#[test]
fn the_length_of_a_name(rt: HostRuntime) -> Result<(), Fail> {
    let alloc = rt.alloc();
    for before in [".inputs ", ".inputs a\n.names a ", ".names f\n.names "] {
        let longest = with_long_word(alloc, before.as_bytes(), 4_096, b"\n")?;
        let ending = compile(alloc, "9", &longest, 4_096)?;
        assert_eq!(rt; ending.status, Status::Done, "behind {before}");
        let longer = with_long_word(alloc, before.as_bytes(), 4_097, b"\n")?;
        let ending = compile(alloc, "9", &longer, 4_096)?;
        refuses(&rt, alloc, &ending, Status::TooLarge, "too large: name")?;
    }
    Ok(())
}

#[test]
fn words_that_name_no_signal_have_any_length(rt: HostRuntime) -> Result<(), Fail> {
    let alloc = rt.alloc();
    for before in [".model ", ".area ", ".end "] {
        let bytes = with_long_word(alloc, before.as_bytes(), 4_097, b"\n")?;
        let ending = compile(alloc, "9", &bytes, 4_096)?;
        assert_eq!(rt; ending.status, Status::Done, "behind {before}");
    }
    Ok(())
}

#[test]
fn a_note_tells_the_first_bytes_of_a_long_word(rt: HostRuntime) -> Result<(), Fail> {
    let alloc = rt.alloc();
    let bytes = with_long_word(alloc, b".", 5_000, b" a\n")?;
    let ending = compile(alloc, "9", &bytes, 4_096)?;
    let note = with_long_word(
        alloc,
        b"pim: bad input: blif line 1: unsupported .",
        4_095,
        b"\n",
    )?;
    assert_eq!(rt; ending.status, Status::BadInput);
    assert_eq!(rt; ending.notes.as_slice(), note.as_slice());
    Ok(())
}

/// A cover of so many columns, all of one input, with so many rows of ones.
fn wide_cover(alloc: Global, columns: usize, rows: usize) -> Result<Vec<u8>, Fail> {
    let mut bytes = Vec::from_slice(alloc, b".inputs a\n.outputs f\n.names")?;
    for _ in 0..columns {
        bytes.extend_from_slice(b" a")?;
    }
    bytes.extend_from_slice(b" f\n")?;
    let mut row = vec![in alloc; b'1'; columns]?;
    row.extend_from_slice(b" 1\n")?;
    for _ in 0..rows {
        bytes.extend_from_slice(&row)?;
    }
    Ok(bytes)
}

/// Its 4,096 nodes stand in a chain: the input, its complement, and a node and the complement of the one before it.
#[test]
fn a_pattern_has_any_length(rt: HostRuntime) -> Result<(), Fail> {
    let alloc = rt.alloc();
    let bytes = wide_cover(alloc, 4_097, 1)?;
    let ending = compile(alloc, "1", &bytes, 4_096)?;
    let text = "too few cells: needed 4";
    refuses(&rt, alloc, &ending, Status::TooFewCells, text)
}
