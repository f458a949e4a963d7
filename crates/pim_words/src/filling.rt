//! The words of a command whose one option is `--fill`: `[--fill zeros|ones]`.
ghost use Rattle.std.specs.Prelude.{◌≡◌, IfOk, OnOk, false, map, true, codes};
ghost use Rattle.std.specs.String.{string_bytes};
ghost use Rattle.clap.specs.Words.{app_of, first_of, first_value, found_of, matches_of};
ghost use Rattle.pim_words.specs.Lines.{fill_line};
ghost use Rattle.pim_words.specs.Reading.{ReadsAlike, fill_of, refuses, with_fill};
ghost use Rattle.pim_words.specs.declared.command.Command.TheVariants as commands;
ghost use Rattle.pim_words.specs.inner.Answer.{IsReading};

use crate::options::choice_of;
use crate::{Command, FillWord, WordsFault};
use clap::ArgMatches;
use std::alloc::{AllocError, Global};

static FILLS: [&str; 2] = ["zeros", "ones"];

/// The command line of a command whose one option is `--fill`, as `clap` reads it.
fn fill_line<'a>(alloc: Global, name: &'a str) -> Result<clap::Command<'a>, AllocError>
    ensures { IfOk result (λ line. ReadsAlike (app_of line) (fill_line name.entry.now)) }
{
    let fill = choice_of(alloc, "fill", FILLS.as_slice()).default_value("zeros");
    clap::Command::new(alloc, name).arg(fill)
}

/// Reads the words of a command of this name, whose one option is `--fill`. The first of them is
/// passed over: it is the name, or the file where the command takes one.
fn read_fill(alloc: Global, name: &str, words: &[String]) -> Result<FillWord, WordsFault>
    ensures usage { result ≡ Err WordsFault.Usage
        → refuses (map string_bytes words.now) (fill_line name.now) ≡ true }
    ensures accepted { OnOk result
        (refuses (map string_bytes words.now) (fill_line name.now) ≡ false) }
    ensures value { IfOk result (λ fill. fill
        ≡ fill_of (first_of (codes "fill")
        (matches_of (fill_line name.now) (map string_bytes words.now)))) }
{
    let line = fill_line(alloc, name)?;
    let matches = line.try_get_matches_from(words)?;
    Ok(fill_of(&matches))
}

/// Reads the words of `run` from its file on.
pub fn read_run(alloc: Global, words: &[String]) -> Result<Command, WordsFault>
    ensures { IsReading (with_fill (codes "run") commands.Run) (map string_bytes words.now) result }
{
    let fill = read_fill(alloc, "run", words)?;
    Ok(Command::Run { fill })
}

/// Reads the words of `debug` from its file on.
pub fn read_debug(alloc: Global, words: &[String]) -> Result<Command, WordsFault>
    ensures { IsReading (with_fill (codes "debug") commands.Debug) (map string_bytes words.now) result }
{
    let fill = read_fill(alloc, "debug", words)?;
    Ok(Command::Debug { fill })
}

/// Reads the words of `implyrun` from its file on.
pub fn read_implyrun(alloc: Global, words: &[String]) -> Result<Command, WordsFault>
    ensures { IsReading (with_fill (codes "implyrun") commands.Implyrun)
        (map string_bytes words.now) result }
{
    let fill = read_fill(alloc, "implyrun", words)?;
    Ok(Command::Implyrun { fill })
}

/// What `--fill` says: ones where its value is `ones`, and else zeros.
fn fill_of(matches: &ArgMatches) -> FillWord
    ensures { result ≡ fill_of (first_value (found_of matches.now) (codes "fill")) }
{
    match matches.get_str("fill") {
        Some(text) if text == "ones" => FillWord::Ones,
        _ => FillWord::Zeros,
    }
}
