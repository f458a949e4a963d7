ghost use Rattle.std.specs.Prelude.{◌≡◌, IfOk, option_map, MatchOption, None, Some};
ghost use Rattle.pim_asm.specs.Statements.{pair_of, target_named, target_of, count_of, let_of, port_of, statement_of};
ghost use Rattle.pim_asm.specs.Words.{words};
ghost use Rattle.pim_asm.specs.inner.Pairs.{pair_view};
ghost use Rattle.pim_asm.specs.inner.StatementViews.{statement_view};

use crate::labels::label;
use crate::names::is_name;
use crate::words::AsmWords;
use pim_io::{NoMemory, number};
use pim_isa::{Instr, MAX_CELLS, Port, Target};
use pim_text::{CellWords, WordWalk, instr_from, is_text};
use std::alloc::Global;

/// A statement behind the number of cells.
#[derive(Debug, Drop)]
pub(crate) enum Statement<'a> {
    /// The name stands for the cell from here on.
    Let(&'a [u8], u32),
    /// The next input.
    Input(Port),
    /// The next output.
    Output(Port),
    /// The next instruction.
    Does(Instr),
}

/// The two words of a text, if it has just two.
fn pair(text: &[u8]) -> Option<(&[u8], &[u8])>
    ensures { option_map pair_view result ≡ pair_of (words text.now) }
{
    let mut words = AsmWords::new(text);
    let first = words.word()?;
    let second = words.word()?;
    match words.word() {
        None => Some((first, second)),
        Some(_) => None,
    }
}

/// The target that a word names.
fn target_named(word: &[u8]) -> Option<Target>
    ensures { result ≡ target_named word.now }
{
    if is_text(word, b"magic") {
        Some(Target::Magic)
    } else if is_text(word, b"plim") {
        Some(Target::Plim)
    } else {
        None
    }
}

/// The target of the first statement.
pub(crate) fn target(line: &[u8]) -> Option<Target>
    ensures { result ≡ target_of (words line.now) }
{
    let (word, name) = pair(line)?;
    if !is_text(word, b"target") {
        return None;
    }
    target_named(name)
}

/// The number of cells of the second statement, if a program may have so many.
pub(crate) fn count(line: &[u8]) -> Option<u32>
    ensures { result ≡ count_of (words line.now) }
{
    let (word, count) = pair(line)?;
    if !is_text(word, b"cells") {
        return None;
    }
    let cells = number(count)?;
    if cells <= MAX_CELLS {
        Some(cells)
    } else {
        None
    }
}

/// A port: its cell and its label.
fn port<C: CellWords>(alloc: Global, cells: &C, text: &[u8]) -> Result<Option<Port>, NoMemory>
    ensures { IfOk result (λ port. port ≡ port_of (C.cell_of cells.now) (words text.now)) }
{
    let Some((word, quoted)) = pair(text) else {
        return Ok(None);
    };
    let Some(cell) = cells.cell(word) else {
        return Ok(None);
    };
    let Some(label) = label(alloc, quoted)? else {
        return Ok(None);
    };
    Ok(Some(Port { cell, label }))
}

/// A name and the cell that it stands for.
fn definition(text: &[u8]) -> Option<Statement<'_>>
    ensures { option_map statement_view result ≡ let_of (words text.now) }
{
    let (name, word) = pair(text)?;
    if !is_name(name) {
        return None;
    }
    Some(Statement::Let(name, number(word)?))
}

/// The statement of a first word and of the text behind it. Linear in their bytes.
pub(crate) fn read_statement<'a, C: CellWords>(
    alloc: Global,
    cells: &C,
    word: &[u8],
    text: &'a [u8],
) -> Result<Option<Statement<'a>>, NoMemory>
    ensures { IfOk result (λ statement.
        option_map statement_view statement ≡ statement_of (C.cell_of cells.now) word.now (words text.now)) }
{
    if is_text(word, b"let") {
        return Ok(definition(text));
    }
    if is_text(word, b"input") {
        let Some(port) = port(alloc, cells, text)? else {
            return Ok(None);
        };
        return Ok(Some(Statement::Input(port)));
    }
    if is_text(word, b"output") {
        let Some(port) = port(alloc, cells, text)? else {
            return Ok(None);
        };
        return Ok(Some(Statement::Output(port)));
    }
    let mut words = AsmWords::new(text);
    let Some(instr) = instr_from(alloc, cells, word, &mut words)? else {
        return Ok(None);
    };
    Ok(Some(Statement::Does(instr)))
}
