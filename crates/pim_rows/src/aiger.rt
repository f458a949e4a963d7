//! Every fault of an ASCII AIGER file once, with its note, and the names that symbols give.
use crate::case::{AND_PROGRAM, BINARY_AND, Case, FIVE, call, check, stops};
use pim_top::Status;
use std::alloc::Global;
use std::process::Abort;
use std::test::Fail;

#[test]
fn symbols_name_the_ports(rt: HostRuntime) -> Result<(), Fail> {
    check(
        &rt,
        rt.alloc(),
        &Case {
            words: FIVE,
            input: b"aag 3 2 0 1 1\n2\n4\n6\n6 4 2\ni0 a\ni1 b\no0 f\nc\nfree text\n",
            status: Status::Done,
            output: b"pim 1\ntarget magic\ncells 5\ninput 0 a\ninput 1 b\noutput 4 f\ncycles 4\ninit 2 3 4\nnot 2 1\nnot 3 0\nnor 4 2 3\nend\n",
            note: b"",
        },
    )
}

/// One file of each, and the status and note that it has to give.
fn check_faults(
    rt: &impl Abort,
    alloc: Global,
    faults: &[(&'static [u8], Status, &'static [u8])],
) -> Result<(), Fail> {
    for fault in faults {
        check(
            rt,
            alloc,
            &Case {
                words: FIVE,
                input: fault.0,
                status: fault.1,
                output: b"",
                note: fault.2,
            },
        )?;
    }
    Ok(())
}

#[test]
fn headers_are_judged(rt: HostRuntime) -> Result<(), Fail> {
    check_faults(
        &rt,
        rt.alloc(),
        &[
            (
                b"aag 1\n",
                Status::BadInput,
                b"pim: bad input: aiger header\n",
            ),
            (
                b"aag 4294967296 0 0 0 0\n",
                Status::BadInput,
                b"pim: bad input: aiger header\n",
            ),
            (
                b"aag 1 1 0 0 0 1\n2\n",
                Status::BadInput,
                b"pim: bad input: aiger header\n",
            ),
            (
                b"aag 1 1 0 1 1\n2\n2\n4 2 2\n",
                Status::BadInput,
                b"pim: bad input: aiger header\n",
            ),
            (
                b"aag 1 1 1 0 0\n2\n",
                Status::BadInput,
                b"pim: bad input: aiger latches\n",
            ),
        ],
    )
}

#[test]
fn body_lines_are_judged(rt: HostRuntime) -> Result<(), Fail> {
    check_faults(
        &rt,
        rt.alloc(),
        &[
            (
                b"aag 1 1 0 1 0\n2 2\n2\n",
                Status::BadInput,
                b"pim: bad input: aiger number at byte 14\n",
            ),
            (
                b"aag 1 1 0 1 0\n2\n9\n",
                Status::BadInput,
                b"pim: bad input: aiger literal at byte 16\n",
            ),
            (
                b"aag 1 1 0 1 0\n3\n2\n",
                Status::BadInput,
                b"pim: bad input: aiger literal at byte 14\n",
            ),
            (
                b"aag 2 1 0 0 1\n2\n0 2 2\n",
                Status::BadInput,
                b"pim: bad input: aiger literal at byte 16\n",
            ),
            (
                b"aag 1 1 0 1 0\n2\n2",
                Status::BadInput,
                b"pim: bad input: aiger truncated at byte 17\n",
            ),
            (
                b"aag 1 1 0 1 0",
                Status::BadInput,
                b"pim: bad input: aiger truncated at byte 13\n",
            ),
        ],
    )
}

#[test]
fn symbols_are_judged(rt: HostRuntime) -> Result<(), Fail> {
    check_faults(
        &rt,
        rt.alloc(),
        &[
            (
                b"aag 1 1 0 1 0\n2\n2\nx0 a\n",
                Status::BadInput,
                b"pim: bad input: aiger symbol at byte 18\n",
            ),
            (
                b"aag 1 1 0 1 0\n2\n2\ni1 a\n",
                Status::BadInput,
                b"pim: bad input: aiger symbol at byte 18\n",
            ),
            (
                b"aag 1 1 0 1 0\n2\n2\ni0\n",
                Status::BadInput,
                b"pim: bad input: aiger symbol at byte 18\n",
            ),
        ],
    )
}

#[test]
fn netlists_are_judged(rt: HostRuntime) -> Result<(), Fail> {
    check_faults(
        &rt,
        rt.alloc(),
        &[
            (
                b"aag 2 2 0 1 0\n2\n2\n2\n",
                Status::BadInput,
                b"pim: bad input: driven twice v1\n",
            ),
            (
                b"aag 2 1 0 1 0\n2\n4\n",
                Status::BadInput,
                b"pim: bad input: undriven v2\n",
            ),
            (
                b"aag 1 0 0 1 1\n2\n2 2 2\n",
                Status::BadInput,
                b"pim: bad input: cycle v1\n",
            ),
            (
                b"aag 2 0 0 1 2\n2\n2 4 4\n4 2 2\n",
                Status::BadInput,
                b"pim: bad input: cycle v1 v2\n",
            ),
        ],
    )
}

#[test]
fn limits_are_judged(rt: HostRuntime) -> Result<(), Fail> {
    check_faults(
        &rt,
        rt.alloc(),
        &[
            (
                b"aag 4294967295 0 0 0 0\n",
                Status::TooLarge,
                b"pim: too large: signals\n",
            ),
            (
                b"aag 1048575 0 0 1048577 0\n",
                Status::TooLarge,
                b"pim: too large: outputs\n",
            ),
        ],
    )
}

/// However the 18 bytes of the AND are cut behind the tag, they are truncated where they end.
#[test]
fn cuts_of_the_binary_form(rt: HostRuntime) -> Result<(), Fail> {
    let alloc = rt.alloc();
    for len in 4..18usize {
        let cut = BINARY_AND.get(..len).ok_or("a shorter file")?;
        let ending = call(alloc, FIVE, cut, 7)?;
        let text = format!(in alloc; "bad input: aiger truncated at byte {len}")?;
        stops(&rt, alloc, &ending, Status::BadInput, b"", &text)?;
    }
    Ok(())
}

/// The AND in the binary form, and codes and headers that are refused.
#[test]
fn the_binary_form(rt: HostRuntime) -> Result<(), Fail> {
    check(
        &rt,
        rt.alloc(),
        &Case {
            words: FIVE,
            input: BINARY_AND,
            status: Status::Done,
            output: AND_PROGRAM,
            note: b"",
        },
    )?;
    let faults: [(&'static [u8], &'static [u8]); 3] = [
        (
            b"aig 3 2 0 1 1\n6\n\x00\x02",
            b"pim: bad input: aiger delta at byte 16\n",
        ),
        (
            b"aig 3 2 0 1 1\n6\n\x80\x80\x80\x80\x80\x01",
            b"pim: bad input: aiger delta at byte 16\n",
        ),
        (b"aig 5 2 0 1 1\n", b"pim: bad input: aiger header\n"),
    ];
    for (input, note) in faults {
        check(
            &rt,
            rt.alloc(),
            &Case {
                words: FIVE,
                input,
                status: Status::BadInput,
                output: b"",
                note,
            },
        )?;
    }
    Ok(())
}

/// A buffer whose input has a name of so many letters.
fn named_buffer(alloc: Global, letters: usize) -> Result<Vec<u8>, Fail> {
    let mut bytes = Vec::from_slice(alloc, b"aag 1 1 0 1 0\n2\n2\ni0 ")?;
    let name = vec![in alloc; b'x'; letters]?;
    bytes.extend_from_slice(&name)?;
    bytes.push(b'\n')?;
    Ok(bytes)
}

#[test]
fn the_length_of_a_name_is_judged(rt: HostRuntime) -> Result<(), Fail> {
    let alloc = rt.alloc();
    let longest = named_buffer(alloc, 4_096)?;
    let ending = call(alloc, FIVE, &longest, 4_096)?;
    assert_eq!(rt; ending.status, Status::Done);
    let longer = named_buffer(alloc, 4_097)?;
    let ending = call(alloc, FIVE, &longer, 4_096)?;
    let text = "too large: name";
    stops(&rt, alloc, &ending, Status::TooLarge, b"", text)
}
