//! The words of `compile`: `--target magic|plim --cells N [--level 0|1|2]`.
ghost use Rattle.std.specs.Prelude.{◌≡◌, IfOk, map, option_map, codes};
ghost use Rattle.std.specs.String.{string_bytes};
ghost use Rattle.clap.specs.Words.{app_of, first_value, found_of, one_text, IsParsedFrom};
ghost use Rattle.clap.specs.declared.parser.matches.ArgMatches.{ArgMatches};
ghost use Rattle.pim_words.specs.Lines.{compile_line};
ghost use Rattle.pim_words.specs.inner.Matches.{HasCells};
ghost use Rattle.pim_words.specs.Reading.{IsWithin, ReadsAlike, compile_command, level_of};
ghost use Rattle.pim_words.specs.Reading.{number_of, target_of};
ghost use Rattle.pim_words.specs.declared.command.Command.TheVariants as commands;
ghost use Rattle.pim_words.specs.inner.Answer.{IsReading};

use crate::cells::cells_of;
use crate::options::{cells_option, choice_of};
use crate::{Command, LevelWord, TargetWord, WordsFault};
use clap::ArgMatches;
use std::alloc::{AllocError, Global};

static TARGETS: [&str; 2] = ["magic", "plim"];

static LEVELS: [&str; 3] = ["0", "1", "2"];

/// The command line of `compile`, as `clap` reads it.
fn compile_line<'a>(alloc: Global) -> Result<clap::Command<'a>, AllocError>
    ensures alike { IfOk result (λ line. ReadsAlike (app_of line) compile_line) }
    ensures cells { IfOk result (λ line. (m : ArgMatches) → IsParsedFrom line m → HasCells m) }
{
    let target = choice_of(alloc, "target", TARGETS.as_slice()).required(true);
    let cells = cells_option(alloc);
    let level = choice_of(alloc, "level", LEVELS.as_slice()).default_value("0");
    clap::Command::new(alloc, "compile")
        .arg(target)?
        .arg(cells)?
        .arg(level)
}

/// Reads the words of `compile`, the name among them.
pub fn read_compile(alloc: Global, words: &[String]) -> Result<Command, WordsFault>
    ensures { IsReading compile_command (map string_bytes words.now) result }
{
    let line = compile_line(alloc)?;
    let matches = line.try_get_matches_from(words)?;
    Ok(compile_of(&matches))
}

/// The command that the matches of `compile` say.
fn compile_of(matches: &ArgMatches) -> Command
    requires { HasCells matches.now }
    ensures said { let target = target_of (first_value (found_of matches.now) (codes "target")) in
        let level = level_of (first_value (found_of matches.now) (codes "level")) in
        option_map (commands.Compile target level)
        (option_map number_of (one_text (found_of matches.now) (codes "cells"))) ≡ Some result }
    ensures within { IsWithin result }
{
    Command::Compile {
        target: target_of(matches),
        level: level_of(matches),
        cells: cells_of(matches),
    }
}

/// What `--target` says: PLiM where its value is `plim`, and else MAGIC.
fn target_of(matches: &ArgMatches) -> TargetWord
    ensures { result ≡ target_of (first_value (found_of matches.now) (codes "target")) }
{
    match matches.get_str("target") {
        Some(text) if text == "plim" => TargetWord::Plim,
        _ => TargetWord::Magic,
    }
}

/// What `--level` says: the level of its value, and else none.
fn level_of(matches: &ArgMatches) -> LevelWord
    ensures { result ≡ level_of (first_value (found_of matches.now) (codes "level")) }
{
    match matches.get_str("level") {
        Some(text) if text == "1" => LevelWord::One,
        Some(text) if text == "2" => LevelWord::Two,
        _ => LevelWord::Zero,
    }
}
