//! The programs that stand one after another in a file.
ghost use Rattle.std.specs.Prelude.{◌≡◌, ◌+◌, ◌-◌, ◌*◌, ◌<◌, ◌≤◌, ◌^◌, [], length, slice_range, IfOk, MatchResult, Ok, OnOk};
ghost use Rattle.pim_io.specs.Lines.{line_view};
ghost use Rattle.pim_io.specs.Readings.{Fails, Gives};
ghost use Rattle.pim_share.specs.Pieces.{AreFew, behind, has_rest, is_end, parts_after, parts_of};
ghost use Rattle.pim_share.specs.Pieces.{pieces_from, ports_in_all, with_part};

use crate::ManyFault;
use pim_file::{FileFault, parse_text};
use pim_io::{Line, MAX_PROGRAM, Scan};
use pim_isa::Program;
use std::alloc::Global;

/// The programs of a file that is cut behind each line `end`, or the first piece that is no program. Linear in the bytes.
pub fn parse_many(alloc: Global, bytes: &[u8]) -> Result<Vec<Program>, ManyFault>
    requires { length bytes.now ≤ MAX_PROGRAM }
    ensures exact { Gives ManyFault.NoMemory (λ v. v.items) result (parts_of bytes.now) }
    ensures few { IfOk result (λ v. AreFew v.items) }
{
    let mut parts = Vec::new(alloc);
    let mut scan = Scan::new(bytes);
    let mut from = 0;
    while let Some(line) = scan.line() {
        if is_end(line) {
            let to = behind(line);
            add_part(alloc, &mut parts, piece(bytes, from, to))?;
            from = to;
        }
    }
    add_rest(alloc, &mut parts, from, bytes)?;
    Ok(parts)
}

/// The bytes from one place to another.
fn piece(bytes: &[u8], from: usize, to: usize) -> &[u8]
    requires order { from ≤ to }
    requires inside { to ≤ length bytes.now }
    ensures value { result.now ≡ slice_range bytes.entry.now from to }
    ensures long { length result.now + from ≡ to }
{
    &bytes[from..to]
}

/// Appends the program of the bytes behind the last cut, if a piece begins there.
fn add_rest(
    alloc: Global,
    parts: &mut Vec<Program>,
    from: usize,
    bytes: &[u8],
) -> Result<(), ManyFault>
    requires few { length parts.old.items < 2 ^ 32 }
    requires short { length bytes.now ≤ MAX_PROGRAM }
    requires inside { from ≤ length bytes.now }
    ensures exact { MatchResult result
        (λ _. parts_after parts.old.items (pieces_from from [] bytes.now) ≡ Ok parts.new.items)
        (λ fault. Fails ManyFault.NoMemory fault (parts_after parts.old.items (pieces_from from [] bytes.now))) }
    ensures long { OnOk result (37 * length parts.new.items + 8 * ports_in_all parts.new.items
        ≤ 37 * length parts.old.items + 8 * ports_in_all parts.old.items + (length bytes.now - from)) }
    ensures some { OnOk result ((0 < from → 0 < length parts.old.items) → 0 < length parts.new.items) }
{
    if has_rest(from, bytes) {
        add_part(alloc, parts, &bytes[from..])
    } else {
        Ok(())
    }
}

/// Whether a piece begins behind the last cut.
fn has_rest(from: usize, bytes: &[u8]) -> bool
    ensures { result ≡ has_rest from bytes.now }
{
    from == 0 || from < bytes.len()
}

/// Appends the program of one more piece.
fn add_part(alloc: Global, parts: &mut Vec<Program>, piece: &[u8]) -> Result<(), ManyFault>
    requires few { length parts.old.items < 2 ^ 32 }
    requires short { length piece.now ≤ MAX_PROGRAM }
    ensures exact { MatchResult result
        (λ _. with_part parts.old.items piece.now ≡ Ok parts.new.items)
        (λ fault. Fails ManyFault.NoMemory fault (with_part parts.old.items piece.now)) }
    ensures long { OnOk result (37 * length parts.new.items + 8 * ports_in_all parts.new.items
        ≤ 37 * length parts.old.items + 8 * ports_in_all parts.old.items + length piece.now) }
    ensures some { OnOk result (length parts.new.items ≡ length parts.old.items + 1) }
{
    match parse_text(alloc, piece) {
        Ok(program) => {
            parts.push(program)?;
            Ok(())
        }
        Err(FileFault::NoMemory) => Err(ManyFault::NoMemory),
        Err(fault) => Err(ManyFault::Part {
            part: parts.len() as u32,
            fault,
        }),
    }
}

/// Whether a line is exactly `end`, with its newline.
fn is_end(line: Line) -> bool
    ensures { result ≡ is_end (line_view line.entry) }
{
    line.ended && line.text == b"end".as_slice()
}

/// The place behind a line and its newline.
fn behind(line: Line) -> usize
    ensures { result ≡ behind (line_view line.entry) }
{
    line.start as usize + line.text.len() + 1
}
