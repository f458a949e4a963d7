//! `asm`: assembly becomes the text of a program.
ghost use Rattle.std.specs.Prelude.{◌≡◌, ◌⊎◌, ◌≤◌, Ok, Err, IfErr, IfOk, length};
ghost use Rattle.pim_words.specs.declared.command.Command.TheVariants as commands;
ghost use Rattle.pim_top.specs.Statuses.{IsNoMemory};
ghost use Rattle.pim_top.specs.Programs.{assembled};

use crate::judgement::Judgement;
use crate::refusal::Origin;
use crate::whole::WholeText;
use pim_asm::assemble;
use pim_file::print;
use pim_io::MAX_INPUT;
use pim_isa::Program;
use std::alloc::Global;

/// `asm`, which has no options.
#[derive(Clone, Copy, Debug)]
pub struct Asm;

impl WholeText for Asm {
    type Opened = ();

    ghost command = { λ c. commands.Asm };

    ghost opens = { λ c file opened. Unit {0} };

    fn reads(&self, origin: Origin) -> Option<u32> {
        match origin {
            Origin::Program => None,
            Origin::Input => Some(MAX_INPUT),
        }
    }

    fn open(&self, _alloc: Global, _file: &[u8]) -> Result<(), Judgement> {
        Ok(())
    }

    fn text(&self, alloc: Global, _opened: (), input: &[u8]) -> Result<Vec<u8>, Judgement> {
        let program = assembled(alloc, input)?;
        Ok(print(alloc, &program)?)
    }

    fn tell_fine(&self) {}
}

/// The program of a text of assembly, or why its bytes are refused.
fn assembled(alloc: Global, input: &[u8]) -> Result<Program, Judgement>
    requires { length input.now ≤ MAX_INPUT }
    ensures program { IfOk result (λ program. assembled input.now ≡ Ok program) }
    ensures refused { IfErr result (λ j. IsNoMemory j ⊎ (assembled input.now ≡ Err j)) }
{
    match assemble(alloc, input) {
        Ok(program) => Ok(program),
        Err(fault) => Err(Judgement::Assembly(fault)),
    }
}
