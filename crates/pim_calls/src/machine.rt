//! The machine of one row.

use crate::and::and_draft;
use pim_isa::{Fill, Machine, Program};
use std::test::Fail;

#[test]
fn runs_an_and(rt: HostRuntime) -> Result<(), Fail> {
    let program = Program::new(and_draft(rt.alloc())?)?;
    let mut machine = Machine::load(rt.alloc(), &program, &[true, true], Fill::Zeros)?;
    for _ in 0..4 {
        assert!(rt; machine.step());
    }
    assert_eq!(rt; machine.cell(4), Some(true));
    Ok(())
}
