//! `explain`: a program becomes an account of when each of its cells is used.
ghost use Rattle.std.specs.Prelude.{◌≡◌, ◌⊎◌, Ok, Err, IfErr, IfOk};
ghost use Rattle.pim_words.specs.declared.command.Command.TheVariants as commands;
ghost use Rattle.pim_top.specs.Statuses.{IsNoMemory};
ghost use Rattle.pim_top.specs.commands.Explain.{explain_of, explained, tree_of};

use crate::judgement::Judgement;
use crate::program::program_of;
use crate::refusal::Origin;
use crate::whole::WholeText;
use pim_io::MAX_PROGRAM;
use pim_isa::Program;
use pim_life::{explain, explain_tree};
use std::alloc::Global;

/// The words of `explain`.
#[derive(Clone, Copy, Debug)]
pub struct Explain {
    /// Whether the line on the graph of the program's NORs is written too.
    pub tree: bool,
}

impl WholeText for Explain {
    type Opened = Vec<u8>;

    ghost command = { λ c. commands.Explain c.tree };

    ghost opens = { λ c file opened. explain_of c.tree file ≡ Ok opened.items };

    fn reads(&self, origin: Origin) -> Option<u32> {
        match origin {
            Origin::Program => Some(MAX_PROGRAM),
            Origin::Input => None,
        }
    }

    fn open(&self, alloc: Global, file: &[u8]) -> Result<Vec<u8>, Judgement> {
        let program = program_of(alloc, file)?;
        explained(alloc, self.tree, &program)
    }

    fn text(&self, _alloc: Global, opened: Vec<u8>, _input: &[u8]) -> Result<Vec<u8>, Judgement> {
        Ok(opened)
    }

    fn tell_fine(&self) {}
}

/// The lives of a program's cells, and the line on its graph where it is asked for.
fn explained(alloc: Global, tree: bool, program: &Program) -> Result<Vec<u8>, Judgement>
    ensures text { IfOk result (λ text. explained tree program.now ≡ Ok text.items) }
    ensures refused { IfErr result (λ j. IsNoMemory j ⊎ (explained tree program.now ≡ Err j)) }
{
    if tree {
        with_tree(alloc, program)
    } else {
        Ok(explain(alloc, program)?)
    }
}

/// The lives of a program's cells and the line on the graph of its NORs.
fn with_tree(alloc: Global, program: &Program) -> Result<Vec<u8>, Judgement>
    ensures text { IfOk result (λ text. tree_of program.now.target program.now ≡ Ok text.items) }
    ensures refused { IfErr result (λ j. IsNoMemory j ⊎ (tree_of program.now.target program.now ≡ Err j)) }
{
    match explain_tree(alloc, program) {
        Ok(text) => Ok(text),
        Err(fault) => Err(Judgement::Tree(fault)),
    }
}
