ghost use Rattle.std.specs.Prelude.{◌≡◌, ◌+◌, ◌≤◌, Bool, List, false, length, Some, None, IsOk, IfOk, IfErr, OnOk, ℕ};
ghost use Rattle.pim_isa.specs.Primed.{IsPrimed, IsPrimedFrom};
ghost use Rattle.pim_isa.specs.Validity.{fault_of};
ghost use Rattle.pim_isa.specs.Sound.{IsSound, IsProgram};
ghost use Rattle.pim_isa.specs.Realizes.{Realizes};
ghost use Rattle.pim_isa.specs.Laws.{ExecLaws, WriteLaws};

use crate::draft::{MAX_INSTRS, MAX_PORTS, ProgramDraft};
use crate::instr::Instr;
use crate::invalid::Invalid;
use crate::port::Port;
use crate::target::Target;
use std::marker::Model;

/// A valid program: its ports and cells are in range, its inputs apart, and each instruction is one of its target
/// that reads no cell which it writes.
#[derive(Debug, Drop)]
pub struct Program {
    target: Target,
    cells: u32,
    inputs: Vec<Port>,
    outputs: Vec<Port>,
    instrs: Vec<Instr>,
}

impl Model for Program {
    ghost use Rattle.pim_isa.specs.Programs.{ProgramView};
    ghost use Rattle.pim_isa.specs.Sound.{IsProgram};

    ghost Value = { ProgramView };

    ghost view = { λ p. record {
      target = p.target;
      cells = p.cells;
      inputs = p.inputs.items;
      outputs = p.outputs.items;
      instrs = p.instrs.items;
    } };

    ghost invariant = { λ p.
        IsProgram (record {
          target = p.target;
          cells = p.cells;
          inputs = p.inputs.items;
          outputs = p.outputs.items;
          instrs = p.instrs.items;
        }) };
}

impl Program {
    /// The program of a draft that has no fault, or its first fault. Takes no memory. Linear in the ports and in the
    /// cells that the instructions name.
    pub fn new(draft: ProgramDraft) -> Result<Program, Invalid>
        requires few_ports { length draft.inputs + length draft.outputs ≤ MAX_PORTS }
        requires few_instrs { length draft.instrs ≤ MAX_INSTRS }
        ensures program { IfOk result (λ program. program ≡ draft) }
        ensures faultless { OnOk result (fault_of draft ≡ None) }
        ensures fault { IfErr result (λ fault. fault_of draft ≡ Some fault) }

        // The same in the words of what a program is.
        ensures sound { OnOk result (IsSound draft) }
        ensures accepts { IsSound draft → IsOk result }
    {
        if let Some(fault) = draft.fault() {
            return Err(fault);
        }
        let ProgramDraft {
            target,
            cells,
            inputs,
            outputs,
            instrs,
            ..
        } = draft;
        Ok(Program {
            target,
            cells,
            inputs,
            outputs,
            instrs,
        })
    }

    /// The law of primed programs, for those who make one: it computes nothing. A program that is primed read from the front,
    /// with no cell ready at first, is primed at each place.
    pub fn primed_from_front(&self)
        ensures { IsPrimedFrom (λ _. false) self.now.instrs → IsPrimed self.now.instrs }
    {
        let _ = &self.instrs;
    }

    /// The laws of instructions that follow one another, for those who make programs: it computes nothing.
    pub fn laws(&self)
        ensures exec { ExecLaws }
        ensures writes { WriteLaws }

        // A program that realizes a function realizes each function that agrees with it on as many bits as inputs.
        ensures function { (labels : List (List ℕ)) (f g : List Bool → List Bool)
            → Realizes self.now labels f
            → ((bits : List Bool) → length bits ≡ length labels → f bits ≡ g bits)
            → Realizes self.now labels g }
    {
        let _ = &self.instrs;
    }

    /// The machine that the program is made for.
    pub fn target(&self) -> Target
        ensures value { result ≡ self.now.target }
        ensures valid { IsProgram self.now }
    {
        self.target
    }

    /// The number of cells.
    pub fn cells(&self) -> u32
        ensures value { result ≡ self.now.cells }
        ensures valid { IsProgram self.now }
    {
        self.cells
    }

    /// The inputs in order.
    pub fn inputs(&self) -> &[Port]
        ensures value { result.now ≡ self.now.inputs }
        ensures valid { IsProgram self.now }
    {
        self.inputs.as_slice()
    }

    /// The outputs in order.
    pub fn outputs(&self) -> &[Port]
        ensures value { result.now ≡ self.now.outputs }
        ensures valid { IsProgram self.now }
    {
        self.outputs.as_slice()
    }

    /// The instructions in order. Their number is that of the program's cycles.
    pub fn instrs(&self) -> &[Instr]
        ensures value { result.now ≡ self.now.instrs }
        ensures valid { IsProgram self.now }
    {
        self.instrs.as_slice()
    }
}
