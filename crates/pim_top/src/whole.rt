//! A command that writes its text whole: a function of its words and of the bytes that it reads, in a shell that reads them and
//! writes the text.
ghost use Rattle.std.specs.Prelude.{◌≡◌, ◌⊎◌, ℕ, List, IfErr, IfOk};
ghost use Rattle.pim_words.specs.declared.command.Command.{Command};
ghost use Rattle.pim_top.specs.Statuses.{IsNoMemory};
ghost use Rattle.pim_top.specs.Answers.{Answers, FilePasses, FileRefused, IsFine};
ghost use Rattle.pim_top.specs.Reads.{IsApart, IsWithin, reads};
ghost use Rattle.pim_top.specs.Streams.{seen, stream};
ghost use Rattle.pim_top.specs.Wholes.{WholeEnds};
ghost use Rattle.pim_top.specs.inner.Faultless.{IsComplete, IsFaultless};

use crate::judgement::Judgement;
use crate::reading::bytes_of;
use crate::refusal::{Origin, Refusal};
use pim_io::{Sink, Source, write_all};
use std::alloc::Global;

/// A command that writes its text whole. The program file is judged before the input is read.
pub(crate) trait WholeText {
    /// What the command makes of its program file: nothing, where it reads none.
    type Opened: Drop;

    /// The command, as its words say it.
    ghost command: { Self → Command };

    /// What was made of the bytes of a program file.
    ghost opens: { Self → List ℕ → Self.Opened → Type 0 };

    /// The most bytes of a source that the command reads, or none where it doesn't read it.
    fn reads(&self, origin: Origin) -> Option<u32>
        ensures { result ≡ reads (command self.now) origin };

    /// Judges the bytes of the program file.
    fn open(&self, alloc: Global, file: &[u8]) -> Result<Self::Opened, Judgement>
        requires { IsWithin (reads (command self.now) Origin.Program) file.now }
        ensures opened { IfOk result (opens self.now file.now) }
        ensures passes { IfOk result (λ opened. FilePasses (command self.now) file.now) }
        ensures refused { IfErr result (λ j. IsNoMemory j ⊎ FileRefused (command self.now) file.now j) };

    /// The text for the bytes of the input, or why they are refused.
    fn text(&self, alloc: Global, opened: Self::Opened, input: &[u8]) -> Result<Vec<u8>, Judgement>
        requires { IsWithin (reads (command self.now) Origin.Input) input.now }
        ensures text { IfOk result (λ text. (file : List ℕ) → opens self.now file opened
            → Answers (command self.now) file input.now (Ok text.items)) }
        ensures refused { IfErr result (λ j. (file : List ℕ) → opens self.now file opened
            → IsNoMemory j ⊎ Answers (command self.now) file input.now (Err j)) };

    /// A law, which computes nothing: what the command takes is not refused.
    fn tell_fine(&self)
        ensures { (file input : List ℕ) → IsFine (command self.now) file input → IsFaultless (command self.now) file input };
}

/// Reads what the command reads, to the end, and writes its text.
pub(crate) fn write_text<C: WholeText, P: Source, S: Source, K: Sink>(
    alloc: Global,
    command: &C,
    program: &mut P,
    input: &mut S,
    output: &mut K,
) -> Result<(), Refusal>
    ensures ends { WholeEnds (C.command command.now) (seen (stream P.left P.faults program.old program.new)
        (stream S.left S.faults input.old input.new) (stream K.taken K.faults output.old output.new)) result }
    ensures apart { IsApart (C.command command.now) (seen (stream P.left P.faults program.old program.new)
        (stream S.left S.faults input.old input.new) (stream K.taken K.faults output.old output.new)) }
    ensures complete { IsComplete (C.command command.now) (seen (stream P.left P.faults program.old program.new)
        (stream S.left S.faults input.old input.new) (stream K.taken K.faults output.old output.new)) result }
{
    command.tell_fine();
    let file = bytes_of(
        alloc,
        program,
        Origin::Program,
        command.reads(Origin::Program),
    )?;
    let opened = command.open(alloc, file.as_slice())?;
    let bytes = bytes_of(alloc, input, Origin::Input, command.reads(Origin::Input))?;
    let text = command.text(alloc, opened, bytes.as_slice())?;
    write_all(output, text.as_slice())?;
    Ok(())
}
