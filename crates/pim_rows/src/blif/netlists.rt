//! Small netlists and their programs, worked by hand: with a cell for each gate, and with as few cells as they need.
use super::{compile, compiles, is_wires, refuses};
use crate::case::{XOR, XOR_PROGRAM};
use pim_top::Status;
use std::test::Fail;

/// A cover of its off-set, with a line that goes on.
const OFF_SET: &[u8] =
    b".model o\n.inputs a \\\nb c\n.outputs f\n.names a b c f\n1-0 0\n-11 0\n.end\n";

/// A full adder with two covers.
const ADDER: &[u8] =
    b"# written by a tool\n.model fa\n.inputs a b \\\ncin\n.outputs s co\n.names a b cin s\n100 1\n010 1\n001 1\n111 1\n.names a b cin co\n11- 1\n1-1 1\n-11 1\n.end\n";

#[test]
fn constants(rt: HostRuntime) -> Result<(), Fail> {
    compiles(
        &rt,
        rt.alloc(),
        "2",
        b".model z\n.outputs f\n.names f\n.end\n",
        b"pim 1\ntarget magic\ncells 2\noutput 1 f\ncycles 2\ninit 0 1\nnot 1 0\nend\n",
    )?;
    compiles(
        &rt,
        rt.alloc(),
        "1",
        b".model z\n.outputs f\n.names f\n1\n",
        b"pim 1\ntarget magic\ncells 1\noutput 0 f\ncycles 1\ninit 0\nend\n",
    )
}

#[test]
fn constants_by_other_covers(rt: HostRuntime) -> Result<(), Fail> {
    compiles(
        &rt,
        rt.alloc(),
        "2",
        b".outputs f\n.names f\n0\n",
        b"pim 1\ntarget magic\ncells 2\noutput 1 f\ncycles 2\ninit 0 1\nnot 1 0\nend\n",
    )?;
    compiles(
        &rt,
        rt.alloc(),
        "3",
        b".inputs a\n.outputs f\n.names a f\n",
        b"pim 1\ntarget magic\ncells 3\ninput 0 a\noutput 2 f\ncycles 2\ninit 1 2\nnot 2 1\nend\n",
    )?;
    compiles(
        &rt,
        rt.alloc(),
        "2",
        b".inputs a\n.outputs f\n.names a f\n- 1\n",
        b"pim 1\ntarget magic\ncells 2\ninput 0 a\noutput 1 f\ncycles 1\ninit 1\nend\n",
    )
}

#[test]
fn a_tautology(rt: HostRuntime) -> Result<(), Fail> {
    compiles(
        &rt,
        rt.alloc(),
        "4",
        b".inputs a\n.outputs f\n.names a f\n1 1\n0 1\n",
        b"pim 1\ntarget magic\ncells 4\ninput 0 a\noutput 3 f\ncycles 4\ninit 1 2 3\nnot 1 0\nnor 2 0 1\nnot 3 2\nend\n",
    )
}

#[test]
fn an_exclusive_or(rt: HostRuntime) -> Result<(), Fail> {
    for cells in ["8", "100"] {
        compiles(&rt, rt.alloc(), cells, XOR, XOR_PROGRAM)?;
    }
    Ok(())
}

#[test]
fn an_exclusive_or_in_five_cells(rt: HostRuntime) -> Result<(), Fail> {
    compiles(
        &rt,
        rt.alloc(),
        "5",
        XOR,
        b"pim 1\ntarget magic\ncells 5\ninput 0 a\ninput 1 b\noutput 2 f\ncycles 10\ninit 2 3 4\nnot 2 0\nnor 3 2 1\nnot 4 1\ninit 2\nnor 2 0 4\ninit 4\nnor 4 3 2\ninit 2 3\nnot 2 4\nend\n",
    )
}

#[test]
fn an_off_set(rt: HostRuntime) -> Result<(), Fail> {
    compiles(
        &rt,
        rt.alloc(),
        "6",
        OFF_SET,
        b"pim 1\ntarget magic\ncells 6\ninput 0 a\ninput 1 b\ninput 2 c\noutput 3 f\ncycles 9\ninit 3 4 5\nnot 3 1\nnot 4 2\nnor 5 3 4\ninit 3 4\nnot 3 0\nnor 4 3 2\ninit 3\nnor 3 4 5\nend\n",
    )
}

#[test]
fn one_cell_too_few(rt: HostRuntime) -> Result<(), Fail> {
    let alloc = rt.alloc();
    for (cells, input, text) in [
        ("4", XOR, "too few cells: needed 5"),
        ("5", OFF_SET, "too few cells: needed 6"),
        ("8", ADDER, "too few cells: needed 9"),
    ] {
        let ending = compile(alloc, cells, input, 7)?;
        refuses(&rt, alloc, &ending, Status::TooFewCells, text)?;
    }
    Ok(())
}

#[test]
fn a_full_adder(rt: HostRuntime) -> Result<(), Fail> {
    compiles(
        &rt,
        rt.alloc(),
        "11",
        ADDER,
        b"pim 1\ntarget magic\ncells 11\ninput 0 a\ninput 1 b\ninput 2 cin\noutput 6 s\noutput 4 co\ncycles 17\ninit 3 4 5 6 7 8 9 10\nnot 3 0\nnot 4 1\nnot 5 2\nnor 6 3 4 5\nnor 7 3 1 2\nnor 8 0 4 2\nnor 9 0 1 5\nnor 10 7 8 9 6\ninit 6 7 8 9\nnot 6 10\nnor 7 3 4\nnor 8 3 5\nnor 9 4 5\ninit 3 4 5 10\nnor 3 7 8 9\nnot 4 3\nend\n",
    )
}

#[test]
fn ports_without_gates(rt: HostRuntime) -> Result<(), Fail> {
    let alloc = rt.alloc();
    is_wires(&rt, alloc, b".model\n", &[], &[])?;
    is_wires(&rt, alloc, b".inputs a\n.outputs\n", &[b"a"], &[])?;
    is_wires(
        &rt,
        alloc,
        b".outputs b b\n.inputs a b\n",
        &[b"a", b"b"],
        &[1, 1],
    )?;
    is_wires(
        &rt,
        alloc,
        b".names x\n1\n.inputs a\n.outputs a\n.inputs\n.inputs b\n",
        &[b"a", b"b"],
        &[0],
    )
}

#[test]
fn a_buffer_takes_no_cell(rt: HostRuntime) -> Result<(), Fail> {
    compiles(
        &rt,
        rt.alloc(),
        "1",
        b".inputs a\n.outputs f\n.names g f\n0 0\n.names a g\n1 1\n",
        b"pim 1\ntarget magic\ncells 1\ninput 0 a\noutput 0 f\ncycles 0\nend\n",
    )
}
