//! `compile`: a netlist becomes the text of a program.
ghost use Rattle.std.specs.Prelude.{◌≡◌, ◌⊎◌, ◌≤◌, length, IfErr, IfOk};
ghost use Rattle.pim_isa.specs.declared.draft.TheConstants.{MAX_CELLS};
ghost use Rattle.pim_words.specs.declared.command.Command.TheVariants as commands;
ghost use Rattle.pim_top.specs.Statuses.{IsNoMemory};
ghost use Rattle.pim_top.specs.commands.Compile.{CompileAnswers, level_of, machine_of};

use crate::judgement::Judgement;
use crate::netlist;
use crate::refusal::Origin;
use crate::whole::WholeText;
use pim_compile::{Level, compile};
use pim_io::MAX_INPUT;
use pim_isa::Target;
use pim_words::{LevelWord, TargetWord};
use std::alloc::Global;

/// The words of `compile`.
#[derive(Clone, Copy, Debug)]
pub struct Compile {
    pub target: TargetWord,
    pub level: LevelWord,
    /// How many cells the program may use.
    pub cells: u32,
    ghost fits: { cells ≤ MAX_CELLS },
}

impl WholeText for Compile {
    type Opened = ();

    ghost command = { λ c. commands.Compile c.target c.level c.cells };

    ghost opens = { λ c file opened. Unit {0} };

    fn reads(&self, origin: Origin) -> Option<u32> {
        match origin {
            Origin::Program => None,
            Origin::Input => Some(MAX_INPUT),
        }
    }

    fn open(&self, _alloc: Global, _file: &[u8]) -> Result<(), Judgement> {
        Ok(())
    }

    fn text(&self, alloc: Global, _opened: (), input: &[u8]) -> Result<Vec<u8>, Judgement> {
        text_of(alloc, *self, input)
    }

    fn tell_fine(&self) {}
}

/// The text of the program that a netlist compiles to.
fn text_of(alloc: Global, words: Compile, bytes: &[u8]) -> Result<Vec<u8>, Judgement>
    requires { length bytes.now ≤ MAX_INPUT }
    ensures text { IfOk result (λ text. CompileAnswers words.target words.level words.cells bytes.now (Ok text.items)) }
    ensures refused { IfErr result (λ j. IsNoMemory j ⊎ CompileAnswers words.target words.level words.cells bytes.now (Err j)) }
{
    let net = netlist::read(alloc, bytes)?;
    let target = machine_of(words.target);
    let level = level_of(words.level);
    let program = match compile(alloc, &net, target, level, words.cells) {
        Ok(program) => program,
        Err(refusal) => return Err(Judgement::Compile(refusal)),
    };
    Ok(pim_file::print(alloc, &program)?)
}

/// The machine that a word of `--target` names.
fn machine_of(word: TargetWord) -> Target
    ensures { result ≡ machine_of word }
{
    match word {
        TargetWord::Magic => Target::Magic,
        TargetWord::Plim => Target::Plim,
    }
}

/// The effort that a word of `--level` names.
fn level_of(word: LevelWord) -> Level
    ensures { result ≡ level_of word }
{
    match word {
        LevelWord::Zero => Level::Zero,
        LevelWord::One => Level::One,
        LevelWord::Two => Level::Two,
    }
}
