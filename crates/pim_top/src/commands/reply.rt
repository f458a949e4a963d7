//! The replies of `debug`: the line of each.
ghost use Rattle.std.specs.Prelude.{◌≡◌, ◌++◌, ◌∷◌, [], codes, decimal, IfErr, IfOk, OnOk};
ghost use Rattle.pim_io.specs.Bits.{digit_of, line_of};
ghost use Rattle.pim_io.specs.Outside.{TookAll};
ghost use Rattle.pim_text.specs.Text.{counted_text};
ghost use Rattle.pim_top.specs.commands.Replies.{break_line, cell_line, reply_line, show_line};
ghost use Rattle.pim_top.specs.inner.Sessions.{IsUnwrittenReply, is_quit};

use crate::refusal::Refusal;
use itoa::Buffer;
use pim_debug::Reply;
use pim_io::{NoMemory, Sink, write_all};
use pim_text::Text;
use std::alloc::Global;

/// Whether a reply ends the session.
pub(crate) fn is_quit(reply: &Reply) -> bool
    ensures { result ≡ is_quit reply.now }
{
    matches!(reply, Reply::Quit)
}

/// Writes the line of a reply, by one piece.
pub(crate) fn write_reply<K: Sink>(
    alloc: Global,
    output: &mut K,
    reply: &Reply,
) -> Result<(), Refusal>
    ensures done { OnOk result (TookAll (K.taken output.old) (K.taken output.new) (reply_line reply.now)) }
    ensures steady { OnOk result (K.faults output.new ≡ K.faults output.old) }
    ensures refused { IfErr result (IsUnwrittenReply (reply_line reply.now) (K.taken output.old) (K.taken output.new) (K.faults output.old) (K.faults output.new)) }
{
    let text = text_of(alloc, reply)?;
    write_all(output, &text)?;
    Ok(())
}

/// The line of a reply.
fn text_of(alloc: Global, reply: &Reply) -> Result<Vec<u8>, NoMemory>
    ensures { IfOk result (λ text. text.items ≡ reply_line reply.now) }
{
    match reply {
        Reply::Nothing | Reply::Quit => Ok(Vec::new(alloc)),
        Reply::At(at) => numbered(alloc, b"at ", *at),
        Reply::Break { number, at } => break_text(alloc, *number, *at),
        Reply::Deleted(number) => numbered(alloc, b"deleted ", *number),
        Reply::Cell(cell, bit) => cell_text(alloc, *cell, *bit),
        Reply::Show(bits) => bits_text(alloc, bits.list()),
    }
}

/// A line of a text and a number.
fn numbered(alloc: Global, word: &[u8], number: u32) -> Result<Vec<u8>, NoMemory>
    ensures { IfOk result (λ line. line.items ≡ counted_text word.now number) }
{
    let mut text = Text::new(alloc);
    text.counted(word, number)?;
    Ok(text.into_bytes())
}

/// The line that tells a breakpoint.
fn break_text(alloc: Global, number: u64, at: u32) -> Result<Vec<u8>, NoMemory>
    ensures { IfOk result (λ line. line.items ≡ break_line number at) }
{
    let mut text = Text::new(alloc);
    let mut digits = Buffer::new();
    text.bytes(b"break ")?;
    text.bytes(digits.format(number).as_bytes())?;
    text.counted(b" at ", at)?;
    Ok(text.into_bytes())
}

/// The line that tells a cell.
fn cell_text(alloc: Global, cell: u32, bit: bool) -> Result<Vec<u8>, NoMemory>
    ensures { IfOk result (λ line. line.items ≡ cell_line cell bit) }
{
    let mut text = Text::new(alloc);
    text.bytes(b"cell ")?;
    text.number(cell)?;
    text.bytes(b" ")?;
    text.bytes(&[digit_of(bit), b'\n'])?;
    Ok(text.into_bytes())
}

/// The line of bits.
fn bits_text(alloc: Global, bits: &[bool]) -> Result<Vec<u8>, NoMemory>
    ensures { IfOk result (λ line. line.items ≡ show_line bits.now) }
{
    let mut line = Vec::new(alloc);
    for bit in bits {
        line.push(digit_of(*bit))?;
    }
    line.push(b'\n')?;
    Ok(line)
}

/// A bit as a character.
fn digit_of(bit: bool) -> u8
    ensures { result ≡ digit_of bit }
{
    if bit { b'1' } else { b'0' }
}
