//! Instructions with a number added to each of their cells.
ghost use Rattle.std.specs.Prelude.{◌≡◌, ◌+◌, ◌<◌, ◌^◌, All, IfOk, map};
ghost use Rattle.pim_isa.specs.Touches.{names, operand_cells, operands};
ghost use Rattle.pim_share.specs.Moved.{moved, moved_ins, moved_operand};

use pim_io::NoMemory;
use pim_isa::{Cells, Ins, Instr, Operand};
use std::alloc::Global;

/// An instruction with `base` added to each of its cells. Linear in the cells that it names.
pub fn moved(alloc: Global, base: u32, instr: &Instr) -> Result<Instr, NoMemory>
    requires { All (λ c. base + c < 2 ^ 32) (names instr.now) }
    ensures { IfOk result (λ i. i ≡ moved base instr.now) }
{
    match instr {
        Instr::Init(cells) => Ok(Instr::Init(moved_cells(alloc, base, cells.list())?)),
        Instr::Nor { t, ins } => Ok(Instr::Nor {
            t: base + *t,
            ins: moved_ins(base, *ins),
        }),
        Instr::Rm3 { p, q, z } => Ok(Instr::Rm3 {
            p: moved_operand(base, *p),
            q: moved_operand(base, *q),
            z: base + *z,
        }),
    }
}

/// Cells, each with `base` added.
fn moved_cells(alloc: Global, base: u32, cells: &[u32]) -> Result<Cells, NoMemory>
    requires { All (λ c. base + c < 2 ^ 32) cells.now }
    ensures { IfOk result (λ list. list ≡ map (λ c. base + c) cells.now) }
{
    let mut list = Cells::new(alloc);
    for cell in cells {
        list.push(base + *cell)?;
    }
    Ok(list)
}

/// The cells that a NOR reads, each with `base` added.
fn moved_ins(base: u32, ins: Ins) -> Ins
    requires { All (λ c. base + c < 2 ^ 32) (operands ins) }
    ensures { result ≡ moved_ins base ins }
{
    match ins {
        Ins::One(a) => Ins::One(base + a),
        Ins::Two(a, b) => Ins::Two(base + a, base + b),
        Ins::Three(a, b, c) => Ins::Three(base + a, base + b, base + c),
        Ins::Four(a, b, c, d) => Ins::Four(base + a, base + b, base + c, base + d),
    }
}

/// An operand with `base` added to its cell, if it is one.
fn moved_operand(base: u32, operand: Operand) -> Operand
    requires { All (λ c. base + c < 2 ^ 32) (operand_cells operand) }
    ensures { result ≡ moved_operand base operand }
{
    match operand {
        Operand::Zero => Operand::Zero,
        Operand::One => Operand::One,
        Operand::Cell(cell) => Operand::Cell(base + cell),
    }
}
