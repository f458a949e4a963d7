//! What is left of each part.
ghost use Rattle.std.specs.Prelude.{◌≡◌, ◌+◌, ◌≤◌, IfOk, OnOk, Some, is_some, length, slice_get, slice_index_or, slice_set};
ghost use Rattle.pim_share.specs.Turns.{after_turn, is_left, laid, next_of, past, turn_of};

use crate::moving::moved;
use pim_io::NoMemory;
use pim_isa::{Instr, MAX_CELLS, Program};
use std::alloc::Global;
use std::marker::Model;

/// What is left of a part: its instructions that were not executed yet, and the first cell of its window.
#[derive(Drop)]
pub struct Part<'a> {
    base: u32,
    rest: &'a [Instr],
}

impl<'a> Model for Part<'a> {
    ghost use Rattle.std.specs.Prelude.{◌+◌, ◌<◌, ◌^◌, All};
    ghost use Rattle.pim_isa.specs.Touches.{names};
    ghost use Rattle.pim_share.specs.Turns.{Left};

    ghost Value = { Left };

    ghost view = { λ p. record { base = p.base; rest = p.rest.now } };

    ghost invariant = { λ p. All (λ i. All (λ c. p.base + c < 2 ^ 32) (names i)) p.rest.now };
}

impl<'a> Part<'a> {
    /// The whole part, with its window from the cell `base` on.
    pub fn new(base: u32, program: &'a Program) -> Part<'a>
        requires { base + program.now.cells ≤ MAX_CELLS }
        ensures { result ≡ record { base = base; rest = program.now.instrs } }
    {
        Part {
            base,
            rest: program.instrs(),
        }
    }

    /// Whether something is left.
    pub fn is_left(&self) -> bool
        ensures { result ≡ is_left self.now }
    {
        !self.rest.is_empty()
    }

    /// The next instruction, moved into the window, if one is left. Linear in the cells that it names.
    pub fn next(&mut self, alloc: Global) -> Result<Option<Instr>, NoMemory>
        ensures instr { IfOk result (λ next. next ≡ next_of self.old) }
        ensures past { OnOk result (self.new ≡ past self.old) }
    {
        let Some((first, rest)) = self.rest.split_first() else {
            return Ok(None);
        };
        let instr = moved(alloc, self.base, first)?;
        self.rest = rest;
        Ok(Some(instr))
    }
}

/// The instruction of a turn, if the turn names a part and something is left of that.
pub fn turn(alloc: Global, parts: &mut Vec<Part>, j: u32) -> Result<Option<Instr>, NoMemory>
    ensures instr { IfOk result (λ next. next ≡ turn_of parts.old.items j) }
    ensures after { OnOk result (parts.new.items ≡ after_turn parts.old.items j) }
{
    match parts.get_mut(j as usize) {
        Some(part) => part.next(alloc),
        None => Ok(None),
    }
}
