//! The words that begin with a dot: those that are read, passed over and unsupported, and where they may stand.
use super::{are_bad, compile, is_wires, refuses};
use pim_top::Status;
use std::test::Fail;

/// The directives that say nothing of what a netlist computes.
const PASSED_OVER: [&str; 14] = [
    ".area",
    ".delay",
    ".wire_load_slope",
    ".wire",
    ".input_arrival",
    ".default_input_arrival",
    ".output_required",
    ".default_output_required",
    ".input_drive",
    ".default_input_drive",
    ".output_load",
    ".default_output_load",
    ".max_input_load",
    ".default_max_input_load",
];

/// Words that are unsupported: other parts of the format, and words that only look like a directive.
const UNSUPPORTED: [&str; 14] = [
    ".latch",
    ".mlatch",
    ".subckt",
    ".gate",
    ".search",
    ".exdc",
    ".clock",
    ".start_kiss",
    ".cycle",
    ".default_area",
    ".wires",
    ".NAMES",
    ".input",
    ".",
];

#[test]
fn a_word_that_is_passed_over_ends_a_cover(rt: HostRuntime) -> Result<(), Fail> {
    let alloc = rt.alloc();
    for word in PASSED_OVER {
        let input = format!(in alloc; ".names f\n{word} f 1.0\n1\n")?;
        let ending = compile(alloc, "9", input.as_bytes(), 7)?;
        let text = "bad input: blif line 3: syntax";
        refuses(&rt, alloc, &ending, Status::BadInput, text)?;
    }
    Ok(())
}

#[test]
fn passed_over_words_change_nothing(rt: HostRuntime) -> Result<(), Fail> {
    let alloc = rt.alloc();
    is_wires(&rt, alloc, b".area 1\n", &[], &[])?;
    is_wires(&rt, alloc, b".inputs a\n.wire\n.outputs a\n", &[b"a"], &[0])?;
    are_bad(
        &rt,
        alloc,
        &[(b".area 1\n.model m\n", "blif line 2: unsupported .model")],
    )
}

#[test]
fn other_words_are_unsupported(rt: HostRuntime) -> Result<(), Fail> {
    let alloc = rt.alloc();
    for word in UNSUPPORTED {
        let input = format!(in alloc; ".inputs x\n {word} x f\n")?;
        let ending = compile(alloc, "9", input.as_bytes(), 7)?;
        let text = format!(in alloc; "bad input: blif line 2: unsupported {word}")?;
        refuses(&rt, alloc, &ending, Status::BadInput, &text)?;
    }
    Ok(())
}

#[test]
fn a_latch_in_a_model(rt: HostRuntime) -> Result<(), Fail> {
    are_bad(
        &rt,
        rt.alloc(),
        &[(
            b".model q\n.inputs x\n.outputs f\n.latch x f\n.end\n",
            "blif line 4: unsupported .latch",
        )],
    )
}

#[test]
fn a_note_tells_a_word_by_its_label(rt: HostRuntime) -> Result<(), Fail> {
    let ending = compile(rt.alloc(), "9", b".\x01\xfe\n", 7)?;
    assert_eq!(rt; ending.status, Status::BadInput);
    assert_eq!(rt;
        ending.notes.as_slice(),
        b"pim: bad input: blif line 1: unsupported .?\xfe\n".as_slice()
    );
    Ok(())
}

#[test]
fn the_place_of_a_model(rt: HostRuntime) -> Result<(), Fail> {
    let alloc = rt.alloc();
    is_wires(
        &rt,
        alloc,
        b".model a b c\n.inputs a\n.end of it\n",
        &[b"a"],
        &[],
    )?;
    are_bad(
        &rt,
        alloc,
        &[
            (b".model a\n.model b\n", "blif line 2: unsupported .model"),
            (b".inputs\n.model b\n", "blif line 2: unsupported .model"),
            (b".end\n.model b\n", "blif line 2: unsupported .model"),
        ],
    )
}

#[test]
fn nothing_stands_behind_the_end(rt: HostRuntime) -> Result<(), Fail> {
    let alloc = rt.alloc();
    is_wires(&rt, alloc, b".end\n# x\n\n", &[], &[])?;
    are_bad(
        &rt,
        alloc,
        &[
            (b".end\n.inputs a\n", "blif line 2: syntax"),
            (b".end\n.area 1\n", "blif line 2: syntax"),
            (b".end\n.latch a b\n", "blif line 2: syntax"),
            (b".end\n.end\n", "blif line 2: syntax"),
            (b".names f\n.end\n1\n", "blif line 3: syntax"),
        ],
    )
}
