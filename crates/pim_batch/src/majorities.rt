ghost use Rattle.std.specs.Prelude.{◌≡◌, ℕ};
ghost use Rattle.pim_lanes.specs.Banks.{row_of, IsRow, SameFrame};
ghost use Rattle.pim_imply.specs.Machines.{iexec, istep};
ghost use Rattle.pim_imply.specs.Validity.{IsFit};
ghost use Rattle.pim_batch.specs.inner.Majorities.{as_majority};

use pim_imply::{ImplyInstr, ImplyProgram};
use pim_isa::{Instr, Operand};
use pim_lanes::Bank;

/// The majority that does what an instruction of the IMPLY machine does: for `false` that of two zeros, for `imp` that with a one.
fn as_majority(instr: ImplyInstr) -> Instr
    ensures { result ≡ as_majority instr }
{
    match instr {
        ImplyInstr::False(q) => Instr::Rm3 {
            p: Operand::Zero,
            q: Operand::One,
            z: q,
        },
        ImplyInstr::Imp { p, q } => Instr::Rm3 {
            p: Operand::One,
            q: Operand::Cell(p),
            z: q,
        },
    }
}

/// Executes one instruction of the IMPLY machine in every row.
#[tactic(auto, using(crate::proofs::MajorityLemmas::fits_majority, crate::proofs::MajorityLemmas::step_as))]
fn apply(bank: &mut Bank, instr: ImplyInstr)
    requires { IsFit bank.old.cells instr }
    ensures rows { (r : ℕ) → IsRow bank.old r → row_of bank.new r ≡ istep (row_of bank.old r) instr }
    ensures frame { SameFrame bank.old bank.new }
{
    bank.apply(&as_majority(instr));
}

/// Executes the instructions of a program of the IMPLY machine in every row, a kernel for each.
pub(crate) fn run_imply(bank: &mut Bank, program: &ImplyProgram)
    requires { program.now.cells ≡ bank.old.cells }
    ensures rows { (r : ℕ) → IsRow bank.old r → row_of bank.new r ≡ iexec program.now.instrs (row_of bank.old r) }
    ensures frame { SameFrame bank.old bank.new }
{
    for instr in program.instrs() {
        apply(bank, *instr);
    }
}
