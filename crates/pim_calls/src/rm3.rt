//! The schedules for PLiM.

use crate::graphs::{aig_of, mig_of, ports_of};
use pim_aig::Aig;
use pim_isa::{Instr, MAX_CELLS, Operand, Program};
use pim_mig::Mig;
use pim_rm3::{Refusal, SmartFault, base, smart};
use std::alloc::Global;
use std::test::Fail;

/// The schedule of an and-inverter graph in that many cells.
fn base_in(alloc: Global, aig: &Aig, budget: u32) -> Result<Result<Program, Refusal>, Fail> {
    let ports = ports_of(alloc, aig.inputs(), aig.outputs().len())?;
    if ports.inputs().len() == aig.inputs() as usize
        && ports.outputs().len() == aig.outputs().len()
        && budget <= MAX_CELLS
    {
        return Ok(base(alloc, aig, &ports, budget));
    }
    Err("no such ports")?
}

/// The schedule of a majority graph in that many cells.
fn smart_in(alloc: Global, mig: &Mig, budget: u32) -> Result<Result<Program, SmartFault>, Fail> {
    let ports = ports_of(alloc, mig.inputs(), mig.outputs().len())?;
    if ports.inputs().len() == mig.inputs() as usize
        && ports.outputs().len() == mig.outputs().len()
        && budget <= MAX_CELLS
    {
        return Ok(smart(alloc, mig, &ports, budget));
    }
    Err("no such ports")?
}

/// Whether a program has so many cells and exactly these instructions of PLiM.
fn is_of(program: &Program, cells: u32, instrs: &[(Operand, Operand, u32)]) -> bool {
    if program.cells() != cells || program.instrs().len() != instrs.len() {
        return false;
    }
    for (instr, (p, q, z)) in program.instrs().iter().zip(instrs) {
        if !is_rm3(instr, *p, *q, *z) {
            return false;
        }
    }
    true
}

/// Whether an instruction is this one.
fn is_rm3(instr: &Instr, p: Operand, q: Operand, z: u32) -> bool {
    match instr {
        Instr::Rm3 {
            p: has_p,
            q: has_q,
            z: has_z,
        } => *has_p == p && *has_q == q && *has_z == z,
        _ => false,
    }
}

/// A chain of ANDs: each takes over the cell of the one before it, so that fewer cells do than the note names.
#[test]
fn a_chain_of_ands(rt: HostRuntime) -> Result<(), Fail> {
    let aig = aig_of(rt.alloc(), 4, &[(2, 4), (10, 6), (12, 8)], 14)?;
    let program = base_in(rt.alloc(), &aig, 5)??;
    let instrs = [
        (Operand::Zero, Operand::One, 4),
        (Operand::Cell(0), Operand::Zero, 4),
        (Operand::Cell(1), Operand::One, 4),
        (Operand::Cell(2), Operand::One, 4),
        (Operand::Cell(3), Operand::One, 4),
    ];
    assert!(rt; is_of(&program, 5, &instrs));
    let refusal = base_in(rt.alloc(), &aig, 4)?.err();
    assert_eq!(rt; refusal, Some(Refusal::TooFewCells { needed: 6 }));
    Ok(())
}

/// Three plain operands: a temporary holds the complement of the second one.
#[test]
fn a_temporary_for_the_second(rt: HostRuntime) -> Result<(), Fail> {
    let mig = mig_of(rt.alloc(), 3, &[(6, 2, 4)], 8)?;
    let program = smart_in(rt.alloc(), &mig, 5)??;
    let instrs = [
        (Operand::One, Operand::Zero, 3),
        (Operand::Zero, Operand::Cell(0), 3),
        (Operand::Zero, Operand::One, 4),
        (Operand::Cell(1), Operand::Zero, 4),
        (Operand::Cell(2), Operand::Cell(3), 4),
    ];
    assert!(rt; is_of(&program, 5, &instrs));
    Ok(())
}
