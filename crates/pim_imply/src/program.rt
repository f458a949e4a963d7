ghost use Rattle.std.specs.Prelude.{◌≡◌, ◌+◌, ◌≤◌, All, length, Some, None, IfOk, IfErr, OnOk};
ghost use Rattle.pim_isa.specs.Sound.{IsProgram};
ghost use Rattle.pim_imply.specs.Programs.{body_of};
ghost use Rattle.pim_imply.specs.Validity.{IsFit, instr_fault, first_instr_fault, fault_of};

use crate::draft::ImplyDraft;
use crate::instr::ImplyInstr;
use crate::invalid::ImplyInvalid;
use pim_isa::{Invalid, MAX_INSTRS, MAX_PORTS, Port, Program};
use std::marker::Model;

/// A valid program: its ports and cells are in range, its inputs apart, and no instruction names one cell twice.
#[derive(Debug, Drop)]
pub struct ImplyProgram {
    // The cells and the ports, and no instruction.
    body: Program,
    instrs: Vec<ImplyInstr>,
}

impl Model for ImplyProgram {
    ghost use Rattle.pim_imply.specs.Programs.{ImplyView};
    ghost use Rattle.pim_imply.specs.inner.Bodies.{IsImply, with_body};

    ghost Value = { ImplyView };

    ghost view = { λ p. with_body p.body p.instrs.items };

    ghost invariant = { λ p. IsImply p.body p.instrs.items };
}

impl ImplyProgram {
    /// The program of a draft that has no fault, or its first fault. Takes no memory. Linear in the ports and instructions.
    pub fn new(draft: ImplyDraft) -> Result<ImplyProgram, ImplyInvalid>
        requires few_ports { length draft.inputs + length draft.outputs ≤ MAX_PORTS }
        requires few_instrs { length draft.instrs ≤ MAX_INSTRS }
        ensures program { IfOk result (λ program. program ≡ draft) }
        ensures faultless { OnOk result (fault_of draft ≡ None) }
        ensures fault { IfErr result (λ fault. fault_of draft ≡ Some fault) }
    {
        let ImplyDraft { body, instrs } = draft;
        let body = match Program::new(body) {
            Ok(body) => body,
            Err(Invalid::Port(place)) => return Err(ImplyInvalid::Port(place)),
            Err(_) => unreachable!(),
        };
        if let Some(fault) = instrs_fault(body.cells(), &instrs) {
            return Err(fault);
        }
        Ok(ImplyProgram { body, instrs })
    }

    /// The number of cells.
    pub fn cells(&self) -> u32
        ensures { result ≡ self.now.cells }
    {
        self.body.cells()
    }

    /// The inputs in order.
    pub fn inputs(&self) -> &[Port]
        ensures { result.now ≡ self.now.inputs }
    {
        self.body.inputs()
    }

    /// The outputs in order.
    pub fn outputs(&self) -> &[Port]
        ensures { result.now ≡ self.now.outputs }
    {
        self.body.outputs()
    }

    /// The cells and the ports, as a program without instructions.
    pub fn body(&self) -> &Program
        ensures { result.now ≡ body_of self.now }
    {
        &self.body
    }

    /// The instructions in order. Their number is that of the program's cycles.
    pub fn instrs(&self) -> &[ImplyInstr]
        ensures value { result.now ≡ self.now.instrs }
        ensures few { length self.now.instrs ≤ MAX_INSTRS }
        ensures body { IsProgram (body_of self.now) }
        ensures faultless { fault_of self.now ≡ None }
        ensures fit { All (IsFit self.now.cells) self.now.instrs }
    {
        self.instrs.as_slice()
    }
}

/// The fault of the instruction at this place.
fn instr_fault(cells: u32, place: u32, instr: ImplyInstr) -> Option<ImplyInvalid>
    ensures { result ≡ instr_fault cells place instr }
{
    match instr {
        ImplyInstr::False(q) => {
            if q >= cells {
                Some(ImplyInvalid::CellRange(place))
            } else {
                None
            }
        }
        ImplyInstr::Imp { p, q } => {
            if p >= cells || q >= cells {
                Some(ImplyInvalid::CellRange(place))
            } else if p == q {
                Some(ImplyInvalid::SameCell(place))
            } else {
                None
            }
        }
    }
}

/// The first fault of the instructions. Linear in them.
fn instrs_fault(cells: u32, instrs: &[ImplyInstr]) -> Option<ImplyInvalid>
    requires { length instrs.now ≤ MAX_INSTRS }
    ensures { result ≡ first_instr_fault cells 0 instrs.now }
{
    for (place, instr) in instrs.iter().enumerate() {
        if let Some(fault) = instr_fault(cells, place as u32, *instr) {
            return Some(fault);
        }
    }
    None
}
