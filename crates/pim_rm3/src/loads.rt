ghost use Rattle.std.specs.Prelude.{◌≡◌, ◌<◌, ◌++◌, length, OnOk};
ghost use Rattle.pim_isa.specs.declared.instr.Instr.TheVariants as instr_is;
ghost use Rattle.pim_rm3.specs.Schedules.{cell_of, is_inverted, load, operand_of, set_to};

use pim_aig::Lit;
use pim_io::NoMemory;
use pim_isa::{Instr, Operand, ProgramDraft};

/// The cell that holds the node of a literal, where the gates have these cells.
pub(crate) fn cell_of(inputs: u32, cells: &[u32], literal: Lit) -> u32
    requires there { literal.0 < length cells.now }
    ensures { result ≡ cell_of inputs cells.now literal }
{
    let node = literal.node();
    if node == 0 {
        0
    } else if node <= inputs {
        node - 1
    } else {
        cells[2 * node as usize]
    }
}

/// Whether the literal is the complement of a node other than the constant one.
pub(crate) fn is_inverted(literal: Lit) -> bool
    ensures { result ≡ is_inverted literal }
{
    literal.0 % 2 == 1 && 0 < literal.0 / 2
}

/// A plain literal as an operand; both literals of node 0 are constants.
pub(crate) fn operand_of(inputs: u32, cells: &[u32], literal: Lit) -> Operand
    requires there { literal.0 < length cells.now }
    ensures { result ≡ operand_of inputs cells.now literal }
{
    match literal.0 {
        0 => Operand::Zero,
        1 => Operand::One,
        _ => Operand::Cell(cell_of(inputs, cells, literal)),
    }
}

/// The instruction that makes a cell the majority of an operand, the complement of another one, and what it holds.
pub(crate) fn rm3(p: Operand, q: Operand, z: u32) -> Instr
    ensures { result ≡ instr_is.Rm3 p q z }
{
    Instr::Rm3 { p, q, z }
}

/// The instruction that makes a cell a constant.
pub(crate) fn set_to(bit: bool, z: u32) -> Instr
    ensures { result ≡ set_to bit z }
{
    if bit {
        rm3(Operand::One, Operand::Zero, z)
    } else {
        rm3(Operand::Zero, Operand::One, z)
    }
}

/// Adds the two instructions that make a cell a literal.
pub(crate) fn add_load(
    draft: &mut ProgramDraft,
    inputs: u32,
    cells: &[u32],
    z: u32,
    literal: Lit,
) -> Result<(), NoMemory>
    requires there { literal.0 < length cells.now }
    ensures { OnOk result (draft.new ≡ record draft.old { instrs = draft.old.instrs ++ load inputs cells.now z literal }) }
{
    if is_inverted(literal) {
        let q = Operand::Cell(cell_of(inputs, cells, literal));
        draft.add(set_to(true, z))?;
        return draft.add(rm3(Operand::Zero, q, z));
    }
    draft.add(set_to(false, z))?;
    draft.add(rm3(operand_of(inputs, cells, literal), Operand::Zero, z))
}
