//! The rows of covers, and the order in which a row is judged.
use super::are_bad;
use std::test::Fail;

#[test]
fn rows_are_judged(rt: HostRuntime) -> Result<(), Fail> {
    are_bad(
        &rt,
        rt.alloc(),
        &[
            (b".names a f\n1\n", "blif line 2: syntax"),
            (b".names a f\n1 1 1\n", "blif line 2: syntax"),
            (b".names a f\n1 2\n", "blif line 2: syntax"),
            (b".names a f\n1 11\n", "blif line 2: syntax"),
            (b".names a f\n2 1\n", "blif line 2: syntax"),
            (b".names a f\n11 1\n", "blif line 2: row width"),
        ],
    )
}

#[test]
fn rows_without_columns(rt: HostRuntime) -> Result<(), Fail> {
    are_bad(
        &rt,
        rt.alloc(),
        &[
            (b".names f\n1 1\n", "blif line 2: syntax"),
            (b".names f\n-\n", "blif line 2: syntax"),
            (b".names f\n11\n", "blif line 2: syntax"),
            (b".names f\n1\n0\n", "blif line 3: mixed phase"),
            (b".names\n", "blif line 1: syntax"),
        ],
    )
}

#[test]
fn the_order_within_a_row(rt: HostRuntime) -> Result<(), Fail> {
    are_bad(
        &rt,
        rt.alloc(),
        &[
            (b".names a f\n22 2 2\n", "blif line 2: syntax"),
            (b".names a f\n11 2\n", "blif line 2: syntax"),
            (b".names a f\n22 1\n", "blif line 2: row width"),
            (b".names a f\n1 1\n22 0\n", "blif line 3: row width"),
            (b".names a f\n1 1\n2 0\n", "blif line 3: syntax"),
            (b".names a f\n1 1\n0 0\n", "blif line 3: mixed phase"),
        ],
    )
}

#[test]
fn a_row_stands_in_a_cover(rt: HostRuntime) -> Result<(), Fail> {
    are_bad(
        &rt,
        rt.alloc(),
        &[
            (b"1 1\n", "blif line 1: syntax"),
            (b"names f\n", "blif line 1: syntax"),
            (b".inputs a\n1 1\n", "blif line 2: syntax"),
            (b".names f\n.outputs f\n1\n", "blif line 3: syntax"),
        ],
    )
}
