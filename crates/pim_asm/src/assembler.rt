ghost use Rattle.std.specs.Prelude.{◌≡◌};
ghost use Rattle.pim_io.specs.Lines.{line_view};
ghost use Rattle.pim_io.specs.Readings.{Gives};
ghost use Rattle.pim_asm.specs.Assembly.{line_read, finished};
ghost use Rattle.pim_asm.specs.Assembly as assembly;

use crate::body::Body;
use crate::fault::AsmFault;
use crate::statement::{count, target};
use crate::words::AsmWords;
use pim_io::Line;
use pim_isa::{ProgramDraft, Target};
use pim_text::WordWalk;
use std::alloc::Global;
use std::marker::Model;

/// How far a text is read.
#[derive(Drop)]
pub(crate) enum Stage<'a> {
    /// Nothing.
    Start,
    /// The target.
    Aimed(Target),
    /// The target and the number of cells.
    Inside(Body<'a>),
}

/// An assembler, which reads a text line by line.
#[derive(Drop)]
pub(crate) struct Assembler<'a> {
    alloc: Global,
    stage: Stage<'a>,
}

impl<'a> Model for Assembler<'a> {
    ghost use Rattle.pim_asm.specs.Assembly.{Stage as StageView};
    ghost use Rattle.pim_asm.specs.inner.Stages.{stage_of};

    ghost Value = { StageView };

    ghost view = { λ a. stage_of a.stage };
}

impl<'a> Assembler<'a> {
    /// An assembler that has read nothing.
    pub(crate) fn new(alloc: Global) -> Assembler<'a>
        ensures { result ≡ assembly.Start }
    {
        Assembler {
            alloc,
            stage: Stage::Start,
        }
    }

    /// The next line.
    pub(crate) fn line(&mut self, line: Line<'a>) -> Result<(), AsmFault>
        ensures { Gives AsmFault.NoMemory (λ _. self.new) result (line_read self.old (line_view line.entry)) }
    {
        let mut words = AsmWords::new(line.text);
        let Some(word) = words.word() else {
            return Ok(());
        };
        match &mut self.stage {
            Stage::Start => {
                let target = target(line.text).ok_or(AsmFault::Line(line.number))?;
                self.stage = Stage::Aimed(target);
                Ok(())
            }
            Stage::Aimed(target) => {
                let cells = count(line.text).ok_or(AsmFault::Line(line.number))?;
                self.stage = Stage::Inside(Body::new(self.alloc, *target, cells));
                Ok(())
            }
            Stage::Inside(body) => body.statement(line.number, word, words.rest()),
        }
    }

    /// The draft at the end of the text, of which the line that would come next has this number.
    pub(crate) fn finish(self, next: u32) -> Result<ProgramDraft, AsmFault>
        ensures { result ≡ finished next self.entry }
    {
        match self.stage {
            Stage::Inside(body) => Ok(body.into_draft()),
            _ => Err(AsmFault::Line(next)),
        }
    }
}
