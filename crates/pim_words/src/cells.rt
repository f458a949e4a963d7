//! The words of a command whose one option is `--cells`: `--cells N`.
ghost use Rattle.std.specs.Prelude.{◌≡◌, ◌≤◌, IfOk, OnOk, Some, codes, false, map, option_map, true};
ghost use Rattle.std.specs.String.{string_bytes};
ghost use Rattle.clap.specs.Words.{IsParsedFrom, app_of, found_of, matches_of, one_text};
ghost use Rattle.clap.specs.declared.parser.matches.ArgMatches.{ArgMatches};
ghost use Rattle.pim_words.specs.Lines.{cells_line};
ghost use Rattle.pim_words.specs.Reading.{ReadsAlike, cells_of, number_of, refuses, with_cells};
ghost use Rattle.pim_words.specs.declared.limits.TheConstants.{MAX_CELLS};
ghost use Rattle.pim_words.specs.declared.command.Command.TheVariants as commands;
ghost use Rattle.pim_words.specs.inner.Answer.{IsReading};
ghost use Rattle.pim_words.specs.inner.Matches.{HasCells};

use crate::options::cells_option;
use crate::{Command, WordsFault};
use clap::ArgMatches;
use std::alloc::{AllocError, Global};

/// The command line of a command whose one option is `--cells`, as `clap` reads it.
fn cells_line<'a>(alloc: Global, name: &'a str) -> Result<clap::Command<'a>, AllocError>
    ensures alike { IfOk result (λ line. ReadsAlike (app_of line) (cells_line name.entry.now)) }
    ensures cells { IfOk result (λ line. (m : ArgMatches) → IsParsedFrom line m → HasCells m) }
{
    clap::Command::new(alloc, name).arg(cells_option(alloc))
}

/// Reads the words of a command of this name, whose one option is `--cells`. The first of them is
/// passed over: it is the name, or the file where the command takes one.
fn read_cells(alloc: Global, name: &str, words: &[String]) -> Result<u32, WordsFault>
    ensures usage { result ≡ Err WordsFault.Usage
        → refuses (map string_bytes words.now) (cells_line name.now) ≡ true }
    ensures accepted { OnOk result
        (refuses (map string_bytes words.now) (cells_line name.now) ≡ false) }
    ensures value { IfOk result (λ cells.
        cells_of (matches_of (cells_line name.now) (map string_bytes words.now)) ≡ Some cells) }
    ensures within { IfOk result (λ cells. cells ≤ MAX_CELLS) }
{
    let line = cells_line(alloc, name)?;
    let matches = line.try_get_matches_from(words)?;
    Ok(cells_of(&matches))
}

/// The number after `--cells`.
pub fn cells_of(matches: &ArgMatches) -> u32
    requires { HasCells matches.now }
    ensures said { option_map number_of (one_text (found_of matches.now) (codes "cells"))
        ≡ Some result }
    ensures within { result ≤ MAX_CELLS }
{
    match matches.get_one::<u32>("cells") {
        Some(cells) => cells,
        None => unreachable!(),
    }
}

/// Reads the words of `imply`, the name among them.
pub fn read_imply(alloc: Global, words: &[String]) -> Result<Command, WordsFault>
    ensures { IsReading (with_cells (codes "imply") commands.Imply)
        (map string_bytes words.now) result }
{
    let cells = read_cells(alloc, "imply", words)?;
    Ok(Command::Imply { cells })
}

/// Reads the words of `share` from its file on.
pub fn read_share(alloc: Global, words: &[String]) -> Result<Command, WordsFault>
    ensures { IsReading (with_cells (codes "share") commands.Share)
        (map string_bytes words.now) result }
{
    let cells = read_cells(alloc, "share", words)?;
    Ok(Command::Share { cells })
}
