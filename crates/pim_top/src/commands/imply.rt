//! `imply`: a netlist becomes the text of a program of `false` and `imp`.
ghost use Rattle.std.specs.Prelude.{◌≡◌, ◌⊎◌, ◌≤◌, Ok, Err, length, IfErr, IfOk};
ghost use Rattle.pim_isa.specs.declared.draft.TheConstants.{MAX_CELLS};
ghost use Rattle.pim_words.specs.declared.command.Command.TheVariants as commands;
ghost use Rattle.pim_top.specs.Statuses.{IsNoMemory};
ghost use Rattle.pim_top.specs.commands.Imply.{ImplyAnswers};

use crate::judgement::Judgement;
use crate::netlist;
use crate::refusal::Origin;
use crate::whole::WholeText;
use pim_imply::{compile_imply, print_imply};
use pim_io::MAX_INPUT;
use std::alloc::Global;

/// The words of `imply`.
#[derive(Clone, Copy, Debug)]
pub struct Imply {
    /// How many cells the program may use.
    pub cells: u32,
    ghost fits: { cells ≤ MAX_CELLS },
}

impl WholeText for Imply {
    type Opened = ();

    ghost command = { λ c. commands.Imply c.cells };

    ghost opens = { λ c file opened. Unit {0} };

    fn reads(&self, origin: Origin) -> Option<u32> {
        match origin {
            Origin::Program => None,
            Origin::Input => Some(MAX_INPUT),
        }
    }

    fn open(&self, _alloc: Global, _file: &[u8]) -> Result<(), Judgement> {
        Ok(())
    }

    fn text(&self, alloc: Global, _opened: (), input: &[u8]) -> Result<Vec<u8>, Judgement> {
        text_of(alloc, *self, input)
    }

    fn tell_fine(&self) {}
}

/// The text of the program that a netlist becomes.
fn text_of(alloc: Global, words: Imply, bytes: &[u8]) -> Result<Vec<u8>, Judgement>
    requires { length bytes.now ≤ MAX_INPUT }
    ensures text { IfOk result (λ text. ImplyAnswers words.cells bytes.now (Ok text.items)) }
    ensures refused { IfErr result (λ j. IsNoMemory j ⊎ ImplyAnswers words.cells bytes.now (Err j)) }
{
    let net = netlist::read(alloc, bytes)?;
    let program = match compile_imply(alloc, &net, words.cells) {
        Ok(program) => program,
        Err(refusal) => return Err(Judgement::Imply(refusal)),
    };
    Ok(print_imply(alloc, &program)?)
}
