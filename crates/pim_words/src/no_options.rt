//! The words of a command without options.
ghost use Rattle.std.specs.Prelude.{map};
ghost use Rattle.std.specs.String.{string_bytes};
ghost use Rattle.pim_words.specs.Reading.{IsWithin, without_options};
ghost use Rattle.pim_words.specs.inner.Answer.{IsReading};

use crate::{Command, WordsFault};
use std::alloc::Global;

/// Reads the words of a command of this name, which has no option. The first of them is passed
/// over: it is the name, or the file where the command takes one.
pub fn read_without_options(
    alloc: Global,
    name: &str,
    words: &[String],
    command: Command,
) -> Result<Command, WordsFault>
    requires { IsWithin command }
    ensures { IsReading (without_options name.now command) (map string_bytes words.now) result }
{
    let _matches = clap::Command::new(alloc, name).try_get_matches_from(words)?;
    Ok(command)
}
