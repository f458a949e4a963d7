//! `debug`: a program is executed forward and back, as the lines of the input ask.
ghost use Rattle.std.specs.Prelude.{◌≡◌, ℕ, not, length, List, Option, None, Some, true, IfErr, IfOk, OnOk};
ghost use Rattle.pim_io.specs.Bits.{bits_of};
ghost use Rattle.pim_io.specs.Outside.{Told, TookAll};
ghost use Rattle.pim_isa.specs.declared.target.Fill.{Fill};
ghost use Rattle.pim_words.specs.declared.command.Command.TheVariants as commands;
ghost use Rattle.pim_debug.specs.States.{SessionView};
ghost use Rattle.pim_top.specs.Debugging.{DebuggedDone, longest_of, session_of};
ghost use Rattle.pim_top.specs.Judged.{is_vector};
ghost use Rattle.pim_top.specs.Streams.{seen, stream};
ghost use Rattle.pim_top.specs.commands.Debug.{DebugEnds};
ghost use Rattle.pim_top.specs.commands.Replies.{reply_line};
ghost use Rattle.pim_top.specs.inner.Faultless.{IsComplete};
ghost use Rattle.pim_top.specs.inner.Sessions.{DebugStops, DebugsOn, IsDebugging, IsOfDebug, IsOfInput, IsUnwrittenReply, command_refusal, debug_refusal, is_quit};
ghost use Rattle.pim_top.specs.inner.Standing.{IsFurther, first_line};

use crate::commands::reply::{is_quit, write_reply};
use crate::commands::run::fill_of;
use crate::judgement::Judgement;
use crate::program::load_program;
use crate::refusal::Refusal;
use crate::walk::of_lines;
use pim_debug::{DebugFault, Reply, Session};
use pim_io::{NoMemory, Sink, Source};
use pim_isa::{Fill, Program};
use pim_vectors::{Lines, LinesFault, vector_fits};
use pim_words::FillWord;
use std::alloc::Global;

/// The longest line has as many bytes as there are inputs, and so many at least.
const LINE: u32 = 64;

/// Reads a program to its end, and obeys each line of the input: the first is the vector of the inputs, with `fill` in all other
/// cells, and each further one a command. Each reply is written before the next line is read.
pub fn debug<P: Source, S: Source, K: Sink>(
    alloc: Global,
    fill: FillWord,
    program: &mut P,
    input: &mut S,
    output: &mut K,
) -> Result<(), Refusal>
    ensures ends { DebugEnds fill (seen (stream P.left P.faults program.old program.new)
        (stream S.left S.faults input.old input.new) (stream K.taken K.faults output.old output.new)) result }
    ensures complete { IsComplete (commands.Debug fill) (seen (stream P.left P.faults program.old program.new)
        (stream S.left S.faults input.old input.new) (stream K.taken K.faults output.old output.new)) result }
{
    obey(alloc, fill, program, input, output)
}

/// The same, by what the sources give.
fn obey<P: Source, S: Source, K: Sink>(
    alloc: Global,
    fill: FillWord,
    program: &mut P,
    input: &mut S,
    output: &mut K,
) -> Result<(), Refusal>
    ensures { DebugEnds fill (seen (stream P.left P.faults program.old program.new)
        (stream S.left S.faults input.old input.new) (stream K.taken K.faults output.old output.new)) result }
{
    let program = load_program(alloc, program)?;
    let longest = (program.inputs().len() as u32).max(LINE);
    let mut lines = Lines::new(alloc, longest)?;
    let mut session = begin(alloc, &program, fill_of(fill), &mut lines, input)?;
    obey_lines(alloc, &mut session, &mut lines, input, output)
}

/// The session of the vector in the first line.
fn begin<'a, S: Source>(
    alloc: Global,
    program: &'a Program,
    fill: Fill,
    lines: &mut Lines,
    input: &mut S,
) -> Result<Session<'a>, Refusal>
    requires { lines.old ≡ first_line (longest_of program.now) }
    ensures begun { IfOk result (λ session. Told (S.left input.old) (S.left input.new) (λ left rest. (now : Option (List ℕ)) →
        IsDebugging program.now fill left rest now now lines.new (Some session))) }
    ensures refused { IfErr result (λ r. Told (S.left input.old) (S.left input.new) (λ left rest. (now : Option (List ℕ)) →
        DebugStops program.now fill left rest now now r)) }
    ensures program { IfOk result (λ session. session.program ≡ program.now) }
    ensures longest { lines.new.longest ≡ lines.old.longest }
    ensures steady { OnOk result (S.faults input.new ≡ S.faults input.old) }
    ensures kinds { IfErr result (IsOfInput (S.faults input.old) (S.faults input.new)) }
{
    match lines.next(input) {
        Ok(None) => Err(Refusal::Judged(Judgement::Vector(1))),
        Ok(Some(line)) => {
            if !fits(program, line) {
                return Err(Refusal::Judged(Judgement::Vector(1)));
            }
            let Ok(session) = session_of(alloc, program, fill, line) else {
                return Err(Refusal::NoMemory);
            };
            Ok(session)
        }
        Err(fault) => Err(of_lines(fault)),
    }
}

/// Whether a line is a vector of the program's inputs.
fn fits(program: &Program, line: &[u8]) -> bool
    ensures { result ≡ is_vector (length program.now.inputs) line.now }
{
    vector_fits(line, program.inputs().len() as u32)
}

/// The session of the vector in a line.
fn session_of<'a>(
    alloc: Global,
    program: &'a Program,
    fill: Fill,
    line: &[u8],
) -> Result<Session<'a>, NoMemory>
    requires { length line.now ≡ length program.now.inputs }
    ensures { IfOk result (λ session. session ≡ session_of program.now fill (bits_of line.now)) }
{
    let vector = bits_of(alloc, line)?;
    Session::new(alloc, program, &vector, fill)
}

/// The bits of a line of characters.
fn bits_of(alloc: Global, line: &[u8]) -> Result<Vec<bool>, NoMemory>
    ensures { IfOk result (λ bits. bits.items ≡ bits_of line.now) }
{
    let mut bits = Vec::new(alloc);
    for digit in line {
        bits.push(*digit == b'1')?;
    }
    Ok(bits)
}

/// Obeys each further line.
fn obey_lines<S: Source, K: Sink>(
    alloc: Global,
    session: &mut Session,
    lines: &mut Lines,
    input: &mut S,
    output: &mut K,
) -> Result<(), Refusal>
    requires { lines.old.longest ≡ longest_of session.old.program }
    ensures done { OnOk result (Told (S.left input.old) (S.left input.new) (λ left rest. (fill : Fill) (bytes : List ℕ) (before : Option (List ℕ)) →
        IsDebugging session.old.program fill bytes left before (K.taken output.old) lines.old (Some session.old) →
        DebuggedDone session.old.program fill bytes rest before (K.taken output.new))) }
    ensures refused { IfErr result (λ r. Told (S.left input.old) (S.left input.new) (λ left rest. (fill : Fill) (bytes : List ℕ) (before : Option (List ℕ)) →
        IsDebugging session.old.program fill bytes left before (K.taken output.old) lines.old (Some session.old) →
        DebugStops session.old.program fill bytes rest before (K.taken output.new) r)) }
    ensures input_steady { OnOk result (S.faults input.new ≡ S.faults input.old) }
    ensures output_steady { OnOk result (K.faults output.new ≡ K.faults output.old) }
    ensures kinds { IfErr result (IsOfDebug (S.faults input.old) (S.faults input.new) (K.faults output.old) (K.faults output.new)) }
{
    let mut more = true;
    while more {
        more = obey_line(alloc, session, lines, input, output)?;
    }
    Ok(())
}

/// Obeys the next line and writes its reply. Says whether there may be more lines.
fn obey_line<S: Source, K: Sink>(
    alloc: Global,
    session: &mut Session,
    lines: &mut Lines,
    input: &mut S,
    output: &mut K,
) -> Result<bool, Refusal>
    requires { lines.old.longest ≡ longest_of session.old.program }
    ensures goes { IfOk result (λ more. Told (S.left input.old) (S.left input.new) (λ left rest. (fill : Fill) (bytes : List ℕ) (before : Option (List ℕ)) →
        IsDebugging session.old.program fill bytes left before (K.taken output.old) lines.old (Some session.old) →
        DebugsOn more session.old.program fill bytes rest before (K.taken output.new) lines.new (Some session.new))) }
    ensures refused { IfErr result (λ r. Told (S.left input.old) (S.left input.new) (λ left rest. (fill : Fill) (bytes : List ℕ) (before : Option (List ℕ)) →
        IsDebugging session.old.program fill bytes left before (K.taken output.old) lines.old (Some session.old) →
        DebugStops session.old.program fill bytes rest before (K.taken output.new) r)) }
    ensures program { session.new.program ≡ session.old.program }
    ensures longest { lines.new.longest ≡ lines.old.longest }
    ensures further { IfOk result (λ more. more ≡ true → IsFurther lines.old lines.new) }
    ensures input_steady { OnOk result (S.faults input.new ≡ S.faults input.old) }
    ensures output_steady { OnOk result (K.faults output.new ≡ K.faults output.old) }
    ensures kinds { IfErr result (IsOfDebug (S.faults input.old) (S.faults input.new) (K.faults output.old) (K.faults output.new)) }
{
    let number = lines.given() + 1;
    match lines.next(input) {
        Ok(None) => Ok(false),
        Ok(Some(line)) => match session.command(line) {
            Ok(reply) => answer(alloc, output, reply),
            Err(fault) => Err(of_command(number, fault)),
        },
        Err(fault) => Err(of_further(fault)),
    }
}

/// Writes a reply. Says whether the session goes on.
fn answer<K: Sink>(alloc: Global, output: &mut K, reply: Reply) -> Result<bool, Refusal>
    ensures goes { IfOk result (λ more. more ≡ not (is_quit reply)) }
    ensures done { OnOk result (TookAll (K.taken output.old) (K.taken output.new) (reply_line reply)) }
    ensures steady { OnOk result (K.faults output.new ≡ K.faults output.old) }
    ensures refused { IfErr result (IsUnwrittenReply (reply_line reply) (K.taken output.old) (K.taken output.new) (K.faults output.old) (K.faults output.new)) }
{
    write_reply(alloc, output, &reply)?;
    Ok(!is_quit(&reply))
}

/// The refusal that a command's fault comes to, by its line.
fn of_command(line: u32, fault: DebugFault) -> Refusal
    ensures { result ≡ command_refusal line fault }
{
    match fault {
        DebugFault::NoMemory => Refusal::NoMemory,
        fault => Refusal::Judged(Judgement::Command(line, fault)),
    }
}

/// The refusal that lines behind the first come to.
fn of_further(fault: LinesFault) -> Refusal
    ensures { (session : SessionView) → result ≡ debug_refusal (Some session) fault }
{
    match fault {
        LinesFault::Long(line) => Refusal::Judged(Judgement::Command(line, DebugFault::BadCommand)),
        fault => of_lines(fault),
    }
}
