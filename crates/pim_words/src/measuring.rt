//! The words of `bench`: `N`, the number of bits.
ghost use Rattle.std.specs.Prelude.{◌≡◌, ◌≤◌, IfOk, Some, codes, map, option_map};
ghost use Rattle.std.specs.String.{string_bytes};
ghost use Rattle.clap.specs.Words.{IsParsedFrom, app_of, found_of, one_text};
ghost use Rattle.clap.specs.declared.parser.matches.ArgMatches.{ArgMatches};
ghost use Rattle.pim_words.specs.Lines.{bench_line};
ghost use Rattle.pim_words.specs.Reading.{ReadsAlike, bench_command, number_of};
ghost use Rattle.pim_words.specs.inner.Answer.{IsReading};
ghost use Rattle.pim_words.specs.inner.Matches.{HasBits};

use crate::options::argument_of;
use crate::{Command, WordsFault};
use clap::ArgMatches;
use std::alloc::{AllocError, Global};

/// The command line of `bench`, as `clap` reads it.
fn bench_line<'a>(alloc: Global) -> Result<clap::Command<'a>, AllocError>
    ensures alike { IfOk result (λ line. ReadsAlike (app_of line) bench_line) }
    ensures bits { IfOk result (λ line. (m : ArgMatches) → IsParsedFrom line m → HasBits m) }
{
    let number = clap::value_parser!(u32).range(1..=64);
    let bits = argument_of(alloc, "bits", number).required(true);
    clap::Command::new(alloc, "bench").arg(bits)
}

/// Reads the words of `bench`, the name among them.
pub fn read_bench(alloc: Global, words: &[String]) -> Result<Command, WordsFault>
    ensures { IsReading bench_command (map string_bytes words.now) result }
{
    let line = bench_line(alloc)?;
    let matches = line.try_get_matches_from(words)?;
    let bits = bits_of(&matches);
    Ok(Command::Bench { bits })
}

/// The number of bits.
fn bits_of(matches: &ArgMatches) -> u32
    requires { HasBits matches.now }
    ensures said { option_map number_of (one_text (found_of matches.now) (codes "bits"))
        ≡ Some result }
    ensures least { 1 ≤ result }
    ensures most { result ≤ 64 }
{
    match matches.get_one::<u32>("bits") {
        Some(bits) => bits,
        None => unreachable!(),
    }
}
