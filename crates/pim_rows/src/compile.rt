//! `compile`: small netlists, refusals for cells and for words.
use crate::case::{AND_NETLIST, AND_PROGRAM, Case, FIVE, XOR, call, check, gives};
use pim_top::Status;
use std::test::Fail;

#[test]
fn compiles(rt: HostRuntime) -> Result<(), Fail> {
    let cases = [
        Case {
            words: &["compile", "--target", "magic", "--cells", "2"],
            input: b"aag 0 0 0 1 0\n0\n",
            status: Status::Done,
            output: b"pim 1\ntarget magic\ncells 2\noutput 1 o0\ncycles 2\ninit 0 1\nnot 1 0\nend\n",
            note: b"",
        },
        Case {
            words: &[
                "compile", "--target", "magic", "--cells", "1", "--level", "0",
            ],
            input: b"aag 0 0 0 1 0\n1\n",
            status: Status::Done,
            output: b"pim 1\ntarget magic\ncells 1\noutput 0 o0\ncycles 1\ninit 0\nend\n",
            note: b"",
        },
        Case {
            words: FIVE,
            input: AND_NETLIST,
            status: Status::Done,
            output: AND_PROGRAM,
            note: b"",
        },
        Case {
            words: &["compile", "--target", "magic", "--cells", "4"],
            input: AND_NETLIST,
            status: Status::TooFewCells,
            output: b"",
            note: b"pim: too few cells: needed 5\n",
        },
        Case {
            words: &["compile", "--target", "magic", "--cells", "1"],
            input: b"aag 1 1 0 1 0\n2\n2\n",
            status: Status::Done,
            output: b"pim 1\ntarget magic\ncells 1\ninput 0 i0\noutput 0 o0\ncycles 0\nend\n",
            note: b"",
        },
    ];
    for case in &cases {
        check(&rt, rt.alloc(), case)?;
    }
    Ok(())
}

/// One whatever its input is.
const TAUTOLOGY: &[u8] = b".inputs a\n.outputs f\n.names a f\n1 1\n0 1\n";

/// At level 0 as it is, and from level 1 on as the constant that it comes to.
#[test]
fn tidies_from_level_one_on(rt: HostRuntime) -> Result<(), Fail> {
    let untidied =
        b"pim 1\ntarget magic\ncells 4\ninput 0 a\noutput 3 f\ncycles 4\ninit 1 2 3\nnot 1 0\nnor 2 0 1\nnot 3 2\nend\n";
    let tidied = b"pim 1\ntarget magic\ncells 2\ninput 0 a\noutput 1 f\ncycles 1\ninit 1\nend\n";
    let cases: [(&'static str, &'static [u8]); 3] = [("0", untidied), ("1", tidied), ("2", tidied)];
    for (level, program) in cases {
        let words = [
            "compile", "--target", "magic", "--cells", "4", "--level", level,
        ];
        let ending = call(rt.alloc(), &words, TAUTOLOGY, 7)?;
        gives(&rt, &ending, program);
    }
    Ok(())
}

/// The words that compile to PLiM with four cells, where only the rewritten graph of the exclusive or fits.
pub const REWRITING: &[&str] = &[
    "compile", "--target", "plim", "--cells", "4", "--level", "2",
];

/// The program of the rewritten exclusive or.
pub const REWRITTEN_XOR: &[u8] =
    b"pim 1\ntarget plim\ncells 4\ninput 0 a\ninput 1 b\noutput 3 f\ncycles 5\nrm3 #0 #1 @2\nrm3 @0 @1 @2\nrm3 #0 #1 @3\nrm3 @1 @0 @3\nrm3 @2 #0 @3\nend\n";

#[test]
fn rewrites_at_level_two(rt: HostRuntime) -> Result<(), Fail> {
    let alloc = rt.alloc();
    let ending = call(alloc, REWRITING, XOR, 7)?;
    gives(&rt, &ending, REWRITTEN_XOR);
    check(
        &rt,
        alloc,
        &Case {
            words: &[
                "compile", "--target", "plim", "--cells", "4", "--level", "0",
            ],
            input: XOR,
            status: Status::TooFewCells,
            output: b"",
            note: b"pim: too few cells: needed 5\n",
        },
    )
}

/// The exclusive or takes eleven cycles at level 0 and nine at level 1.
#[test]
fn takes_fewer_cycles_at_level_one(rt: HostRuntime) -> Result<(), Fail> {
    let cases = [("5", "0", "cycles 11"), ("9", "1", "cycles 9")];
    for (cells, level, line) in cases {
        let words = [
            "compile", "--target", "plim", "--cells", cells, "--level", level,
        ];
        let ending = call(rt.alloc(), &words, XOR, 7)?;
        let mut lines = ending.output.as_slice().split(|b| *b == b'\n');
        assert!(rt;
            lines.any(|text| text == line.as_bytes()),
            "where {line} is wanted"
        );
    }
    Ok(())
}

#[test]
fn refuses_words(rt: HostRuntime) -> Result<(), Fail> {
    let words: [&'static [&'static str]; 3] = [&["compile", "--target", "magic"], &["link"], &[]];
    for words in words {
        check(
            &rt,
            rt.alloc(),
            &Case {
                words,
                input: AND_NETLIST,
                status: Status::Usage,
                output: b"",
                note: b"pim: usage\n",
            },
        )?;
    }
    Ok(())
}
