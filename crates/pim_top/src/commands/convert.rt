//! `convert`: a program is written in another form, or in its own.
ghost use Rattle.std.specs.Prelude.{◌≡◌, Ok, IfOk};
ghost use Rattle.pim_words.specs.declared.command.Command.TheVariants as commands;
ghost use Rattle.pim_top.specs.commands.Convert.{in_form};

use crate::judgement::Judgement;
use crate::program::program_of;
use crate::refusal::Origin;
use crate::whole::WholeText;
use pim_file::{print, print_binary};
use pim_io::{MAX_PROGRAM, NoMemory};
use pim_isa::Program;
use pim_words::FormWord;
use std::alloc::Global;

/// The words of `convert`.
#[derive(Clone, Copy, Debug)]
pub struct Convert {
    pub form: FormWord,
}

impl WholeText for Convert {
    type Opened = ();

    ghost command = { λ c. commands.Convert c.form };

    ghost opens = { λ c file opened. Unit {0} };

    fn reads(&self, origin: Origin) -> Option<u32> {
        match origin {
            Origin::Program => None,
            Origin::Input => Some(MAX_PROGRAM),
        }
    }

    fn open(&self, _alloc: Global, _file: &[u8]) -> Result<(), Judgement> {
        Ok(())
    }

    fn text(&self, alloc: Global, _opened: (), input: &[u8]) -> Result<Vec<u8>, Judgement> {
        let program = program_of(alloc, input)?;
        Ok(in_form(alloc, self.form, &program)?)
    }

    fn tell_fine(&self) {}
}

/// A program in the form that a word of `--form` names.
fn in_form(alloc: Global, form: FormWord, program: &Program) -> Result<Vec<u8>, NoMemory>
    ensures { IfOk result (λ text. text.items ≡ in_form form program.now) }
{
    match form {
        FormWord::Text => print(alloc, program),
        FormWord::Binary => print_binary(alloc, program),
    }
}
