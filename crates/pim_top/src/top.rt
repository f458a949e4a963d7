//! The call itself: words in, a status out, and everything that is read and written on the way.
ghost use Rattle.std.specs.Prelude.{◌≡◌, ◌≢◌, ◌⊎◌, ℕ, List, map, true, false};
ghost use Rattle.std.specs.String.{string_bytes};
ghost use Rattle.pim_words.specs.Plain.{IsPlain, IsTaken};
ghost use Rattle.pim_words.specs.Reading.{IsWithin as HasNumbers, command_said, is_usage};
ghost use Rattle.pim_words.specs.declared.command.Command.{Command};
ghost use Rattle.pim_top.specs.Answers.{EndsFine, IsFine};
ghost use Rattle.pim_top.specs.Calls.{FileIsFine, HasEnded, IsCalm, IsDecided, IsDone, IsFileDecided, IsIdle, Ends, IsNoted, Obeys};
ghost use Rattle.pim_io.specs.Outside.{Rose};
ghost use Rattle.pim_top.specs.Notes.{refusal_note};
ghost use Rattle.pim_top.specs.Reads.{IsApart, Tells, executes_rows, reads, streams};
ghost use Rattle.pim_top.specs.Statuses.{answer_status};
ghost use Rattle.pim_top.specs.Streams.{IsUntouched, seen, stream};
ghost use Rattle.pim_top.specs.inner.Faultless.{IsComplete};

use crate::Status;
use crate::commands::asm::Asm;
use crate::commands::bench::Bench;
use crate::commands::compile::Compile;
use crate::commands::convert::Convert;
use crate::commands::debug::debug;
use crate::commands::explain::Explain;
use crate::commands::imply::Imply;
use crate::commands::implyrun::implyrun;
use crate::commands::list;
use crate::commands::prove::Prove;
use crate::commands::run::run;
use crate::commands::share::Share;
use crate::note::tell;
use crate::refusal::{Origin, Refusal};
use crate::whole::write_text;
use pim_io::{Sink, Source};
use pim_words::{Command, WordsFault};
use std::alloc::Global;

/// Obeys the words: reads what the command wants, writes what it gives to `output`, and where it can't, one line to `notes`.
///
/// `words` are those after the program's name. A failing notes sink changes nothing else. A command that doesn't stream reads its
/// sources to their end and writes its text whole or not at all; `run` and `implyrun` read `program`, then `input` line by line, and
/// write the results of a tile of rows at a time; `debug` writes each reply before it reads the next line.
pub fn pim<P: Source, S: Source, K: Sink, E: Sink>(
    alloc: Global,
    words: &[String],
    program: &mut P,
    input: &mut S,
    output: &mut K,
    notes: &mut E,
) -> Status
    // The whole of it: an answer, what was done by the command that the words say, and the answer's note.
    ensures ends { HasEnded (map string_bytes words.now) (seen (stream P.left P.faults program.old program.new)
        (stream S.left S.faults input.old input.new) (stream K.taken K.faults output.old output.new))
        (stream E.taken E.faults notes.old notes.new) result }

    // Where the sources and the output tell their bytes, the output took what the command writes for them.
    ensures done { result ≡ Status.Done → IsDone (map string_bytes words.now) (seen (stream P.left P.faults program.old program.new)
        (stream S.left S.faults input.old input.new) (stream K.taken K.faults output.old output.new)) }
    ensures silent { result ≡ Status.Done → E.taken notes.new ≡ E.taken notes.old }

    // The words.
    ensures usage { result ≡ Status.Usage → is_usage (map string_bytes words.now) ≡ true }
    ensures accepted { result ≢ Status.Usage → result ≢ Status.NoMemory → is_usage (map string_bytes words.now) ≡ false }
    ensures said { (command : Command) → IsPlain command (map string_bytes words.now)
        → (command_said (map string_bytes words.now) ≡ Some command) × (result ≢ Status.Usage) }
    ensures untouched { result ≡ Status.Usage → IsIdle (seen (stream P.left P.faults program.old program.new)
        (stream S.left S.faults input.old input.new) (stream K.taken K.faults output.old output.new)) }
    ensures apart { (command : Command) → command_said (map string_bytes words.now) ≡ Some command
        → IsApart command (seen (stream P.left P.faults program.old program.new)
        (stream S.left S.faults input.old input.new) (stream K.taken K.faults output.old output.new)) }

    // Each fault of the outside was counted in this call.
    ensures read_fault { result ≡ Status.ReadFault
        → Rose (P.faults program.old) (P.faults program.new) ⊎ Rose (S.faults input.old) (S.faults input.new) }
    ensures write_fault { result ≡ Status.WriteFault → Rose (K.faults output.old) (K.faults output.new) }

    // What was told decides the status, where no fault was counted: the program file by itself, or together with the input.
    ensures file_decided { (command : Command) (file : List ℕ) → command_said (map string_bytes words.now) ≡ Some command
        → is_usage (map string_bytes words.now) ≡ false
        → Tells (reads command Origin.Program) (stream P.left P.faults program.old program.new) file
        → ¬ Rose (P.faults program.old) (P.faults program.new)
        → FileIsFine command file ⊎ (IsFileDecided command file result ⊎ (result ≡ Status.NoMemory)) }
    ensures decided { (command : Command) (file bytes : List ℕ) → command_said (map string_bytes words.now) ≡ Some command
        → is_usage (map string_bytes words.now) ≡ false
        → Tells (reads command Origin.Program) (stream P.left P.faults program.old program.new) file
        → Tells (reads command Origin.Input) (stream S.left S.faults input.old input.new) bytes
        → IsCalm (seen (stream P.left P.faults program.old program.new)
        (stream S.left S.faults input.old input.new) (stream K.taken K.faults output.old output.new))
        → IsDecided command file bytes result ⊎ (result ≡ Status.NoMemory) }
    ensures complete { (command : Command) (file bytes : List ℕ) → command_said (map string_bytes words.now) ≡ Some command
        → is_usage (map string_bytes words.now) ≡ false
        → Tells (reads command Origin.Program) (stream P.left P.faults program.old program.new) file
        → Tells (reads command Origin.Input) (stream S.left S.faults input.old input.new) bytes
        → IsCalm (seen (stream P.left P.faults program.old program.new)
        (stream S.left S.faults input.old input.new) (stream K.taken K.faults output.old output.new))
        → IsFine command file bytes
        → EndsFine command result ⊎ (result ≡ Status.NoMemory) }

    // What a refusal leaves.
    ensures nothing { (command : Command) → command_said (map string_bytes words.now) ≡ Some command → streams command ≡ false
        → result ≢ Status.Done → result ≢ Status.WriteFault → IsUntouched (stream K.taken K.faults output.old output.new) }
    ensures no_late_memory { (command : Command) → command_said (map string_bytes words.now) ≡ Some command → executes_rows command ≡ true
        → result ≡ Status.NoMemory → IsUntouched (stream S.left S.faults input.old input.new) × IsUntouched (stream K.taken K.faults output.old output.new) }
{
    let answer = obey(alloc, words, program, input, output);
    tell(&answer, notes);
    status_of(&answer)
}

/// Ends a call for whose words there is no memory: writes the note of that, and gives its status.
pub fn no_memory<E: Sink>(notes: &mut E) -> Status
    ensures status { result ≡ Status.NoMemory }
    ensures noted { IsNoted (stream E.taken E.faults notes.old notes.new) (refusal_note Refusal.NoMemory) }
{
    tell(&Err(Refusal::NoMemory), notes);
    Status::NoMemory
}

/// Reads the words, and does what their command does.
fn obey<P: Source, S: Source, K: Sink>(
    alloc: Global,
    words: &[String],
    program: &mut P,
    input: &mut S,
    output: &mut K,
) -> Result<(), Refusal>
    ensures obeys { Obeys (map string_bytes words.now) (seen (stream P.left P.faults program.old program.new)
        (stream S.left S.faults input.old input.new) (stream K.taken K.faults output.old output.new)) result }
    ensures said { (command : Command) → IsPlain command (map string_bytes words.now) → IsTaken command (map string_bytes words.now) }
    ensures complete { (command : Command) → command_said (map string_bytes words.now) ≡ Some command
        → is_usage (map string_bytes words.now) ≡ false
        → IsComplete command (seen (stream P.left P.faults program.old program.new)
        (stream S.left S.faults input.old input.new) (stream K.taken K.faults output.old output.new)) result }
{
    match pim_words::read(alloc, words) {
        Ok(command) => execute(alloc, command, program, input, output),
        Err(WordsFault::Usage) => Err(Refusal::Usage),
        Err(WordsFault::NoMemory) => Err(Refusal::NoMemory),
    }
}

/// Does what a command does.
fn execute<P: Source, S: Source, K: Sink>(
    alloc: Global,
    command: Command,
    program: &mut P,
    input: &mut S,
    output: &mut K,
) -> Result<(), Refusal>
    requires { HasNumbers command }
    ensures ends { Ends command (seen (stream P.left P.faults program.old program.new)
        (stream S.left S.faults input.old input.new) (stream K.taken K.faults output.old output.new)) result }
    ensures apart { IsApart command (seen (stream P.left P.faults program.old program.new)
        (stream S.left S.faults input.old input.new) (stream K.taken K.faults output.old output.new)) }
    ensures complete { IsComplete command (seen (stream P.left P.faults program.old program.new)
        (stream S.left S.faults input.old input.new) (stream K.taken K.faults output.old output.new)) result }
{
    match command {
        Command::Compile {
            target,
            level,
            cells,
        } => {
            let compile = Compile {
                target,
                level,
                cells,
            };
            write_text(alloc, &compile, program, input, output)
        }
        Command::Run { fill } => run(alloc, fill, program, input, output),
        Command::List => write_text(alloc, &list::List, program, input, output),
        Command::Explain { tree } => write_text(alloc, &Explain { tree }, program, input, output),
        Command::Prove => write_text(alloc, &Prove, program, input, output),
        Command::Asm => write_text(alloc, &Asm, program, input, output),
        Command::Debug { fill } => debug(alloc, fill, program, input, output),
        Command::Convert { form } => write_text(alloc, &Convert { form }, program, input, output),
        Command::Imply { cells } => write_text(alloc, &Imply { cells }, program, input, output),
        Command::Implyrun { fill } => implyrun(alloc, fill, program, input, output),
        Command::Share { cells } => write_text(alloc, &Share { cells }, program, input, output),
        Command::Bench { bits } => write_text(alloc, &Bench { bits }, program, input, output),
    }
}

/// The status of a call's answer.
fn status_of(answer: &Result<(), Refusal>) -> Status
    ensures { result ≡ answer_status answer.now }
{
    match answer {
        Ok(()) => Status::Done,
        Err(refusal) => refusal.status(),
    }
}
