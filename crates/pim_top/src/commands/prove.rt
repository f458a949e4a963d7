//! `prove`: a program is compared with a netlist on all vectors.
ghost use Rattle.std.specs.Prelude.{◌≡◌, ◌⊎◌, ◌≤◌, ℕ, List, Ok, Err, IfErr, IfOk, length};
ghost use Rattle.pim_words.specs.declared.command.Command.TheVariants as commands;
ghost use Rattle.pim_top.specs.Programs.{program_of};
ghost use Rattle.pim_top.specs.Statuses.{IsNoMemory};
ghost use Rattle.pim_top.specs.commands.Prove.{ProveAnswers, equal_line};

use crate::judgement::Judgement;
use crate::netlist;
use crate::program::program_of;
use crate::refusal::Origin;
use crate::vector::VectorText;
use crate::whole::WholeText;
use pim_io::{MAX_INPUT, MAX_PROGRAM, NoMemory};
use pim_isa::Program;
use pim_net::Net;
use pim_prove::{MAX_PROVE_INPUTS, Verdict, prove};
use pim_text::Text;
use std::alloc::Global;

/// `prove`, which has no options.
#[derive(Clone, Copy, Debug)]
pub struct Prove;

impl WholeText for Prove {
    type Opened = Program;

    ghost command = { λ c. commands.Prove };

    ghost opens = { λ c file opened. program_of file ≡ Ok opened };

    fn reads(&self, origin: Origin) -> Option<u32> {
        match origin {
            Origin::Program => Some(MAX_PROGRAM),
            Origin::Input => Some(MAX_INPUT),
        }
    }

    fn open(&self, alloc: Global, file: &[u8]) -> Result<Program, Judgement> {
        program_of(alloc, file)
    }

    fn text(&self, alloc: Global, opened: Program, input: &[u8]) -> Result<Vec<u8>, Judgement> {
        text_of(alloc, &opened, input)
    }

    fn tell_fine(&self) {}
}

/// The line that all vectors agree, or why it isn't written.
#[tactic(auto, using(crate::proofs::ComparedNets::few_inputs))]
fn text_of(alloc: Global, program: &Program, input: &[u8]) -> Result<Vec<u8>, Judgement>
    requires { length input.now ≤ MAX_INPUT }
    ensures text { IfOk result (λ text. (file : List ℕ) → program_of file ≡ Ok program.now → ProveAnswers file input.now (Ok text.items)) }
    ensures refused { IfErr result (λ j. (file : List ℕ) → program_of file ≡ Ok program.now
        → IsNoMemory j ⊎ ProveAnswers file input.now (Err j)) }
{
    let net = netlist::read(alloc, input)?;
    match prove(alloc, program, &net) {
        Ok(Verdict::Equal) => Ok(equal_line(alloc, &net)?),
        Ok(Verdict::Differs { vector, output }) => {
            let inputs = net.inputs().len() as u32;
            let vector = VectorText::numbered(alloc, inputs, vector)?;
            Err(Judgement::Unequal { vector, output })
        }
        Err(fault) => Err(Judgement::Prove(fault)),
    }
}

/// The line that all vectors of a netlist agree.
fn equal_line(alloc: Global, net: &Net) -> Result<Vec<u8>, NoMemory>
    requires { length net.now.inputs ≤ MAX_PROVE_INPUTS }
    ensures { IfOk result (λ text. text.items ≡ equal_line net.now) }
{
    let vectors = 2u32.pow(net.inputs().len() as u32);
    let mut text = Text::new(alloc);
    text.counted(b"equal ", vectors)?;
    Ok(text.into_bytes())
}
