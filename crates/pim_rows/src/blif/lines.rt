//! How the bytes of a file are cut into lines and words: comments, lines that go on, blanks, and bytes of names.
use super::{are_bad, is_wires};
use std::test::Fail;

#[test]
fn comments(rt: HostRuntime) -> Result<(), Fail> {
    let alloc = rt.alloc();
    is_wires(
        &rt,
        alloc,
        b"# x\n\n \t\n.inputs a#b c\n.outputs a\n",
        &[b"a"],
        &[0],
    )?;
    is_wires(&rt, alloc, b".inputs a # \\\n.outputs a\n", &[b"a"], &[0])?;
    is_wires(
        &rt,
        alloc,
        b".inputs a \\#b\nc\n.outputs c\n",
        &[b"a", b"c"],
        &[1],
    )?;
    is_wires(
        &rt,
        alloc,
        b".inputs a \\\n#\\\n.outputs a\n",
        &[b"a"],
        &[0],
    )
}

#[test]
fn lines_that_go_on(rt: HostRuntime) -> Result<(), Fail> {
    let alloc = rt.alloc();
    is_wires(
        &rt,
        alloc,
        b".inputs a\\\nb\n.outputs b\n",
        &[b"a", b"b"],
        &[1],
    )?;
    is_wires(
        &rt,
        alloc,
        b".inputs a \\ \t\nb\n.outputs b\n",
        &[b"a", b"b"],
        &[1],
    )?;
    is_wires(&rt, alloc, b".inputs a\n.outputs a\\", &[b"a"], &[0])?;
    is_wires(
        &rt,
        alloc,
        b"\\\n.inputs a\n.outputs a\\\n\\\n",
        &[b"a"],
        &[0],
    )?;
    is_wires(
        &rt,
        alloc,
        b".inputs a\\\\\nb\n.outputs b\n",
        &[b"a\\", b"b"],
        &[1],
    )?;
    is_wires(
        &rt,
        alloc,
        b".inputs a \\\n.outputs b\n",
        &[b"a", b".outputs", b"b"],
        &[],
    )
}

#[test]
fn carriage_returns(rt: HostRuntime) -> Result<(), Fail> {
    let alloc = rt.alloc();
    is_wires(
        &rt,
        alloc,
        b".inputs a \\\r\nb\r\n.outputs b\r\n.end\r\n",
        &[b"a", b"b"],
        &[1],
    )?;
    is_wires(
        &rt,
        alloc,
        b".inputs a\rb\n.outputs b\r",
        &[b"a", b"b"],
        &[1],
    )?;
    is_wires(&rt, alloc, b"\t.inputs\t a\n .outputs a", &[b"a"], &[0])
}

#[test]
fn any_byte_may_stand_in_a_name(rt: HostRuntime) -> Result<(), Fail> {
    let alloc = rt.alloc();
    is_wires(
        &rt,
        alloc,
        b".inputs \x00 \xff\n.outputs \xff\n",
        &[b"?", b"\xff"],
        &[1],
    )?;
    is_wires(
        &rt,
        alloc,
        b".inputs \x0b\x0c \x7f\x80\n",
        &[b"??", b"?\x80"],
        &[],
    )?;
    is_wires(
        &rt,
        alloc,
        b".inputs \x01 \x02\n.outputs \x02\n",
        &[b"?", b"?"],
        &[1],
    )?;
    are_bad(&rt, alloc, &[(b".outputs a\x00b\n", "undriven a?b")])
}

#[test]
fn lines_are_counted_from_one(rt: HostRuntime) -> Result<(), Fail> {
    are_bad(
        &rt,
        rt.alloc(),
        &[
            (b"#\n\n.x\n", "blif line 3: unsupported .x"),
            (b"\\\n.x\n", "blif line 1: unsupported .x"),
            (b".inputs a\\\n\\\na\n", "blif line 1: input twice"),
            (b".inputs a\\\nb\n.x\n", "blif line 3: unsupported .x"),
            (b".inputs a\r\n\r\n.x\r\n", "blif line 3: unsupported .x"),
        ],
    )
}
