//! The words of `convert`: `--form 1|2`.
ghost use Rattle.std.specs.Prelude.{◌≡◌, IfOk, map, codes};
ghost use Rattle.std.specs.String.{string_bytes};
ghost use Rattle.clap.specs.Words.{app_of, first_value, found_of};
ghost use Rattle.pim_words.specs.Lines.{convert_line};
ghost use Rattle.pim_words.specs.Reading.{ReadsAlike, convert_command, form_of};
ghost use Rattle.pim_words.specs.inner.Answer.{IsReading};

use crate::options::choice_of;
use crate::{Command, FormWord, WordsFault};
use clap::ArgMatches;
use std::alloc::{AllocError, Global};

static FORMS: [&str; 2] = ["1", "2"];

/// The command line of `convert`, as `clap` reads it.
fn convert_line<'a>(alloc: Global) -> Result<clap::Command<'a>, AllocError>
    ensures { IfOk result (λ line. ReadsAlike (app_of line) convert_line) }
{
    let form = choice_of(alloc, "form", FORMS.as_slice()).required(true);
    clap::Command::new(alloc, "convert").arg(form)
}

/// Reads the words of `convert`, the name among them.
pub fn read_convert(alloc: Global, words: &[String]) -> Result<Command, WordsFault>
    ensures { IsReading convert_command (map string_bytes words.now) result }
{
    let line = convert_line(alloc)?;
    let matches = line.try_get_matches_from(words)?;
    let form = form_of(&matches);
    Ok(Command::Convert { form })
}

/// What `--form` says: binary where its value is `2`, and else text.
fn form_of(matches: &ArgMatches) -> FormWord
    ensures { result ≡ form_of (first_value (found_of matches.now) (codes "form")) }
{
    match matches.get_str("form") {
        Some(text) if text == "2" => FormWord::Binary,
        _ => FormWord::Text,
    }
}
