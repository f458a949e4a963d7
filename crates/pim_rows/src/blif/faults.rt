//! Faults of a file and of the netlist that it makes.
use super::are_bad;
use std::test::Fail;

#[test]
fn a_file_without_statements(rt: HostRuntime) -> Result<(), Fail> {
    are_bad(
        &rt,
        rt.alloc(),
        &[
            (b"", "blif line 1: syntax"),
            (b"\n\n", "blif line 1: syntax"),
            (b"# .end\n \\\n\r\n", "blif line 1: syntax"),
        ],
    )
}

#[test]
fn a_binary_netlist_cut_before_its_tag_ends(rt: HostRuntime) -> Result<(), Fail> {
    are_bad(
        &rt,
        rt.alloc(),
        &[
            (b"a", "blif line 1: syntax"),
            (b"ai", "blif line 1: syntax"),
            (b"aig", "blif line 1: syntax"),
            (b"aag\t0 0 0 0 0\n", "blif line 1: syntax"),
        ],
    )
}

#[test]
fn an_input_is_named_once(rt: HostRuntime) -> Result<(), Fail> {
    are_bad(
        &rt,
        rt.alloc(),
        &[
            (b".inputs a a\n", "blif line 1: input twice"),
            (b".inputs a\n.inputs b a\n", "blif line 2: input twice"),
            (b".inputs a a\n.x\n", "blif line 1: input twice"),
        ],
    )
}

#[test]
fn drivers_are_judged(rt: HostRuntime) -> Result<(), Fail> {
    are_bad(
        &rt,
        rt.alloc(),
        &[
            (b".inputs a\n.names a\n", "driven twice a"),
            (b".names f\n.names f\n1\n", "driven twice f"),
            (b".outputs f\n", "undriven f"),
            (
                b".model d\n.inputs x\n.outputs f\n.names x f\n1 1\n.names u d\n1 1\n.end\n",
                "undriven u",
            ),
            (b".names f\n1 1\n.outputs u\n", "blif line 2: syntax"),
        ],
    )
}

#[test]
fn cycles_are_told(rt: HostRuntime) -> Result<(), Fail> {
    are_bad(
        &rt,
        rt.alloc(),
        &[
            (
                b".model c\n.inputs x\n.outputs f\n.names g f\n1 1\n.names f g\n1 1\n.end\n",
                "cycle f g",
            ),
            (b".names f f\n", "cycle f"),
        ],
    )
}
