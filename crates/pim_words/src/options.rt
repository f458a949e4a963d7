//! The arguments of a command line.
ghost use Rattle.clap.specs.declared.builder.value_parser.ValueParser.TheVariants as vp;
ghost use Rattle.pim_words.specs.Lines.{argument_of, cells_rule, option_of};
ghost use Rattle.pim_words.specs.inner.Options.{HasRule};

use crate::limits::MAX_CELLS;
use clap::builder::ValueParser;
use clap::{Arg, ArgAction};
use std::alloc::Global;

/// The argument of this name, with one value that the parser takes. It is a word without a name.
pub fn argument_of<'a>(alloc: Global, name: &'a str, parser: ValueParser<'a>) -> Arg<'a>
    ensures { HasRule (argument_of name.entry.now parser.entry) result }
{
    Arg::new(alloc, name)
        .action(ArgAction::Set)
        .value_parser(parser)
}

/// The option `--name`, with one value that the parser takes.
pub fn option_of<'a>(alloc: Global, name: &'a str, parser: ValueParser<'a>) -> Arg<'a>
    ensures { HasRule (option_of name.entry.now parser.entry) result }
{
    argument_of(alloc, name, parser).long(name)
}

/// The option `--name`, with one value that is one of the choices.
pub fn choice_of<'a>(alloc: Global, name: &'a str, choices: &'a [&'a str]) -> Arg<'a>
    ensures { HasRule (option_of name.entry.now (vp.Names choices.entry)) result }
{
    option_of(alloc, name, ValueParser::Names(choices))
}

/// The option `--cells`, with a number of cells of a row.
pub fn cells_option<'a>(alloc: Global) -> Arg<'a>
    ensures { HasRule cells_rule result }
{
    let number = clap::value_parser!(u32).range(0..=i64::from(MAX_CELLS));
    option_of(alloc, "cells", number).required(true)
}
