//! `list`: a program becomes a listing.
ghost use Rattle.std.specs.Prelude.{◌≡◌, Ok};
ghost use Rattle.pim_words.specs.declared.command.Command.TheVariants as commands;
ghost use Rattle.pim_top.specs.Programs.{program_of};

use crate::judgement::Judgement;
use crate::program::program_of;
use crate::refusal::Origin;
use crate::whole::WholeText;
use pim_asm::listing;
use pim_io::MAX_PROGRAM;
use pim_isa::Program;
use std::alloc::Global;

/// `list`, which has no options.
#[derive(Clone, Copy, Debug)]
pub struct List;

impl WholeText for List {
    type Opened = Program;

    ghost command = { λ c. commands.List };

    ghost opens = { λ c file opened. program_of file ≡ Ok opened };

    fn reads(&self, origin: Origin) -> Option<u32> {
        match origin {
            Origin::Program => Some(MAX_PROGRAM),
            Origin::Input => None,
        }
    }

    fn open(&self, alloc: Global, file: &[u8]) -> Result<Program, Judgement> {
        program_of(alloc, file)
    }

    fn text(&self, alloc: Global, opened: Program, _input: &[u8]) -> Result<Vec<u8>, Judgement> {
        Ok(listing(alloc, &opened)?)
    }

    fn tell_fine(&self) {}
}
