//! The words of `explain`: `[--tree]`.
ghost use Rattle.std.specs.Prelude.{◌≡◌, IfOk, codes, map};
ghost use Rattle.std.specs.String.{string_bytes};
ghost use Rattle.clap.specs.Words.{app_of, first_value, found_of};
ghost use Rattle.pim_words.specs.Lines.{explain_line};
ghost use Rattle.pim_words.specs.Reading.{ReadsAlike, explain_command, tree_of};
ghost use Rattle.pim_words.specs.inner.Answer.{IsReading};

use crate::{Command, WordsFault};
use clap::{Arg, ArgAction, ArgMatches};
use std::alloc::{AllocError, Global};

/// The command line of `explain`, as `clap` reads it.
fn explain_line<'a>(alloc: Global) -> Result<clap::Command<'a>, AllocError>
    ensures { IfOk result (λ line. ReadsAlike (app_of line) explain_line) }
{
    let tree = Arg::new(alloc, "tree")
        .long("tree")
        .action(ArgAction::SetTrue);
    clap::Command::new(alloc, "explain").arg(tree)
}

/// Reads the words of `explain` from its file on.
pub fn read_explain(alloc: Global, words: &[String]) -> Result<Command, WordsFault>
    ensures { IsReading explain_command (map string_bytes words.now) result }
{
    let line = explain_line(alloc)?;
    let matches = line.try_get_matches_from(words)?;
    let tree = tree_of(&matches);
    Ok(Command::Explain { tree })
}

/// Whether `--tree` stands there.
fn tree_of(matches: &ArgMatches) -> bool
    ensures { result ≡ tree_of (first_value (found_of matches.now) (codes "tree")) }
{
    match matches.get_str("tree") {
        Some(text) => text == "true",
        None => false,
    }
}
