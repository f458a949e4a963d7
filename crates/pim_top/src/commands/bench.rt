//! `bench`: an adder becomes three programs, and what they gave for random rows.
ghost use Rattle.std.specs.Prelude.{◌<◌, ◌≤◌};
ghost use Rattle.pim_adder.specs.declared.netlist.TheConstants.{MAX_BITS};
ghost use Rattle.pim_words.specs.declared.command.Command.TheVariants as commands;

use crate::judgement::Judgement;
use crate::refusal::Origin;
use crate::whole::WholeText;
use pim_bench::measured;
use std::alloc::Global;

/// The words of `bench`.
#[derive(Clone, Copy, Debug)]
pub struct Bench {
    /// How many bits each number has.
    pub bits: u32,
    ghost some: { 0 < bits },
    ghost few: { bits ≤ MAX_BITS },
}

impl WholeText for Bench {
    type Opened = ();

    ghost command = { λ c. commands.Bench c.bits };

    ghost opens = { λ c file opened. Unit {0} };

    fn reads(&self, _origin: Origin) -> Option<u32> {
        None
    }

    fn open(&self, _alloc: Global, _file: &[u8]) -> Result<(), Judgement> {
        Ok(())
    }

    fn text(&self, alloc: Global, _opened: (), _input: &[u8]) -> Result<Vec<u8>, Judgement> {
        Ok(measured(alloc, self.bits)?)
    }

    fn tell_fine(&self) {}
}
