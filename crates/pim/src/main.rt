//! The program `pim`: the words and the standard streams are handed to `pim_top::pim`, whose status is the exit status.
#![tactic(auto)]

mod file;

use crate::file::FileSource;
use pim_io::{NoMemory, ReadSource, WriteSink};
use pim_top::{no_memory, pim, program_word};
use std::io::ErrorKind;
use std::process::ExitCode;
use std::{env, fs};

/// The words after the program's name. Words that can't be read, as those that are no UTF-8, count as none.
fn words(rt: &HostRuntime) -> Result<Vec<String>, NoMemory> {
    let mut words = Vec::new(rt.alloc());
    let args = match env::args(rt) {
        Ok(args) => args,
        Err(fault) => match fault.kind() {
            ErrorKind::OutOfMemory => return Err(NoMemory),
            _ => return Ok(words),
        },
    };
    for word in args.skip(1) {
        words.push(word)?;
    }
    Ok(words)
}

fn main(rt: HostRuntime) -> ExitCode {
    // What is opened takes the lowest number that is free. Where a standard stream is closed, this folder takes its number, so
    // that FILE does not: reading or writing there is a fault, as it has to be.
    let _held = fs::open(&rt, "/");
    let mut notes = WriteSink::new(rt.stderr());
    let Ok(words) = words(&rt) else {
        return ExitCode::from(no_memory(&mut notes).code());
    };
    let mut program = FileSource::new(&rt, program_word(&words));
    let mut input = ReadSource::new(rt.stdin());
    let mut output = WriteSink::new(rt.stdout());
    let status = pim(
        rt.alloc(),
        &words,
        &mut program,
        &mut input,
        &mut output,
        &mut notes,
    );
    ExitCode::from(status.code())
}
