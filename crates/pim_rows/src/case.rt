//! One call of the tool over memory, and what it has to answer.
ghost use Rattle.std.specs.Prelude.{◌<◌};

use pim_io::{MemSink, MemSource, SliceSource, Source};
use pim_top::{Status, pim};
use std::alloc::Global;
use std::process::Abort;
use std::test::Fail;

/// The program of a two-input AND.
pub const AND_PROGRAM: &[u8] =
    b"pim 1\ntarget magic\ncells 5\ninput 0 i0\ninput 1 i1\noutput 4 o0\ncycles 4\ninit 2 3 4\nnot 2 1\nnot 3 0\nnor 4 2 3\nend\n";

/// The same for PLiM.
pub const PLIM_AND: &[u8] =
    b"pim 1\ntarget plim\ncells 3\ninput 0 i0\ninput 1 i1\noutput 2 o0\ncycles 3\nrm3 #0 #1 @2\nrm3 @1 #0 @2\nrm3 @0 #1 @2\nend\n";

/// A two-input AND in ASCII AIGER.
pub const AND_NETLIST: &[u8] = b"aag 3 2 0 1 1\n2\n4\n6\n6 4 2\n";

/// The same in the binary form.
pub const BINARY_AND: &[u8] = b"aig 3 2 0 1 1\n6\n\x02\x02";

/// The exclusive or of two inputs.
pub const XOR: &[u8] = b".model x\n.inputs a b\n.outputs f\n.names a b f\n10 1\n01 1\n.end\n";

/// Its program, in eight cells.
pub const XOR_PROGRAM: &[u8] =
    b"pim 1\ntarget magic\ncells 8\ninput 0 a\ninput 1 b\noutput 7 f\ncycles 7\ninit 2 3 4 5 6 7\nnot 2 0\nnor 3 2 1\nnot 4 1\nnor 5 0 4\nnor 6 3 5\nnot 7 6\nend\n";

/// The words that compile to MAGIC with at most five cells.
pub const FIVE: &[&str] = &["compile", "--target", "magic", "--cells", "5"];

/// Words, standard input, and the status, output and note that they have to give.
#[derive(Clone, Copy)]
pub struct Case {
    pub words: &'static [&'static str],
    pub input: &'static [u8],
    pub status: Status,
    pub output: &'static [u8],
    pub note: &'static [u8],
}

/// The words as the tool takes them.
pub fn words_of(alloc: Global, words: &[&str]) -> Result<Vec<String>, Fail> {
    let mut all = Vec::new(alloc);
    for word in words {
        all.push(String::from_str(alloc, word)?)?;
    }
    Ok(all)
}

/// How a call ended.
#[derive(Drop)]
pub struct Ending {
    pub status: Status,
    pub output: Vec<u8>,
    pub notes: Vec<u8>,
}

/// Makes the call over these sources and sinks, and says how it ended.
pub fn call_over<P: Source, S: Source>(
    alloc: Global,
    words: &[&str],
    program: &mut P,
    input: &mut S,
    output: &mut MemSink,
    notes: &mut MemSink,
) -> Result<Ending, Fail> {
    let words = words_of(alloc, words)?;
    let status = pim(alloc, &words, program, input, output, notes);
    Ok(Ending {
        status,
        output: Vec::from_slice(alloc, output.bytes())?,
        notes: Vec::from_slice(alloc, notes.bytes())?,
    })
}

/// Makes the call over these sources and this output, with ample room for notes.
pub fn call_from<P: Source, S: Source>(
    alloc: Global,
    words: &[&str],
    program: &mut P,
    input: &mut S,
    output: &mut MemSink,
) -> Result<Ending, Fail> {
    let mut notes = MemSink::new(alloc, 1_048_576, 4_096, &[])?;
    call_over(alloc, words, program, input, output, &mut notes)
}

/// Makes the call on a program file and an input, with ample room.
pub fn call_on(
    alloc: Global,
    words: &[&str],
    program: &[u8],
    input: &[u8],
) -> Result<Ending, Fail> {
    call_within(alloc, words, program, input, 65_536)
}

/// Makes the call on a program file and an input, with room for so many bytes.
pub fn call_within(
    alloc: Global,
    words: &[&str],
    program: &[u8],
    input: &[u8],
    room: usize,
) -> Result<Ending, Fail> {
    let mut program = SliceSource::new(program);
    let mut input = SliceSource::new(input);
    let mut output = MemSink::new(alloc, room, 4_096, &[])?;
    call_from(alloc, words, &mut program, &mut input, &mut output)
}

/// Makes the call without a program, with ample memory and room, where the input comes in pieces of so many bytes.
pub fn call(alloc: Global, words: &[&str], input: &[u8], piece: usize) -> Result<Ending, Fail>
    requires { 0 < piece }
{
    let mut program = SliceSource::new(b"");
    let mut input = MemSource::new(alloc, input, piece, &[])?;
    let mut output = MemSink::new(alloc, 65_536, 4_096, &[])?;
    call_from(alloc, words, &mut program, &mut input, &mut output)
}

/// A call that was done, and wrote this.
pub fn gives(rt: &impl Abort, ending: &Ending, output: &[u8]) {
    assert_eq!(rt; ending.status, Status::Done);
    assert_eq!(rt; ending.output.as_slice(), output);
    assert_eq!(rt; ending.notes.as_slice(), b"".as_slice());
}

/// A call that ended with this status and this line in the notes, and wrote this before.
pub fn stops(
    rt: &impl Abort,
    alloc: Global,
    ending: &Ending,
    status: Status,
    output: &[u8],
    text: &str,
) -> Result<(), Fail> {
    let note = format!(in alloc; "pim: {text}\n")?;
    assert_eq!(rt; ending.status, status, "where {text} is wanted");
    assert_eq!(rt; ending.output.as_slice(), output, "where {text} is wanted");
    assert_eq!(rt; ending.notes.as_slice(), note.as_bytes());
    Ok(())
}

/// Makes the call with ample memory and room, and compares.
pub fn check(rt: &impl Abort, alloc: Global, case: &Case) -> Result<(), Fail> {
    let ending = call(alloc, case.words, case.input, 7)?;
    assert_eq!(rt; ending.status, case.status);
    assert_eq!(rt; ending.output.as_slice(), case.output);
    assert_eq!(rt; ending.notes.as_slice(), case.note);
    Ok(())
}
