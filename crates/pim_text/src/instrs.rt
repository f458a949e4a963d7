ghost use Rattle.std.specs.Prelude.{◌≡◌, IfOk, MatchOption, Some, None};
ghost use Rattle.pim_text.specs.InstrForms.{marked_of, operand_of, operand_at, cell_at, marked_at, closed, init_of, not_of, nor_of, rm3_of, instr_from, instr_of};

use crate::cells::{CellWords, PlainNumbers};
use crate::fields::{Fields, WordWalk, behind, is_text};
use pim_io::NoMemory;
use pim_isa::{Cells, Ins, Instr, Operand};
use std::alloc::Global;

/// A cell after an at sign.
fn marked<C: CellWords>(cells: &C, word: &[u8]) -> Option<u32>
    ensures { result ≡ marked_of (C.cell_of cells.now) word.now }
{
    cells.cell(behind(b"@", word)?)
}

/// An operand of an RM3.
fn operand<C: CellWords>(cells: &C, word: &[u8]) -> Option<Operand>
    ensures { result ≡ operand_of (C.cell_of cells.now) word.now }
{
    if is_text(word, b"#0") {
        Some(Operand::Zero)
    } else if is_text(word, b"#1") {
        Some(Operand::One)
    } else {
        Some(Operand::Cell(marked(cells, word)?))
    }
}

/// The cell that the next word stands for.
fn next_cell<'a, C: CellWords, W: WordWalk<'a>>(cells: &C, words: &mut W) -> Option<u32>
    ensures { MatchOption result
        (cell_at (C.cell_of cells.now) (W.left words.old) ≡ None)
        (λ cell. cell_at (C.cell_of cells.now) (W.left words.old) ≡ Some (cell, W.left words.new)) }
{
    cells.cell(words.word()?)
}

/// The operand that the next word spells.
fn next_operand<'a, C: CellWords, W: WordWalk<'a>>(cells: &C, words: &mut W) -> Option<Operand>
    ensures { MatchOption result
        (operand_at (C.cell_of cells.now) (W.left words.old) ≡ None)
        (λ operand. operand_at (C.cell_of cells.now) (W.left words.old) ≡ Some (operand, W.left words.new)) }
{
    operand(cells, words.word()?)
}

/// The cell after an at sign that the next word spells.
fn next_marked<'a, C: CellWords, W: WordWalk<'a>>(cells: &C, words: &mut W) -> Option<u32>
    ensures { MatchOption result
        (marked_at (C.cell_of cells.now) (W.left words.old) ≡ None)
        (λ cell. marked_at (C.cell_of cells.now) (W.left words.old) ≡ Some (cell, W.left words.new)) }
{
    marked(cells, words.word()?)
}

/// The instruction, where no further word follows.
fn closed<'a, W: WordWalk<'a>>(instr: Instr, words: &mut W) -> Option<Instr>
    ensures { result ≡ closed instr (W.left words.old) }
{
    match words.word() {
        None => Some(instr),
        Some(_) => None,
    }
}

/// An Init of the cells of all words. Linear in them.
fn init<'a, C: CellWords, W: WordWalk<'a>>(
    alloc: Global,
    cells: &C,
    words: &mut W,
) -> Result<Option<Instr>, NoMemory>
    ensures { IfOk result (λ instr. instr ≡ init_of (C.cell_of cells.now) (W.left words.old)) }
{
    let mut list = Cells::new(alloc);
    while let Some(word) = words.word() {
        let Some(cell) = cells.cell(word) else {
            return Ok(None);
        };
        list.push(cell)?;
    }
    Ok(Some(Instr::Init(list)))
}

/// A NOR of one operand.
#[tactic(auto, unfolding(crate::specs::InstrForms::not_of))]
fn not<'a, C: CellWords, W: WordWalk<'a>>(cells: &C, words: &mut W) -> Option<Instr>
    ensures { result ≡ not_of (C.cell_of cells.now) (W.left words.old) }
{
    let t = next_cell(cells, words)?;
    let a = next_cell(cells, words)?;
    let ins = Ins::One(a);
    closed(Instr::Nor { t, ins }, words)
}

/// A NOR of two to four operands.
#[tactic(auto, unfolding(crate::specs::InstrForms::nor_of))]
fn nor<'a, C: CellWords, W: WordWalk<'a>>(cells: &C, words: &mut W) -> Option<Instr>
    ensures { result ≡ nor_of (C.cell_of cells.now) (W.left words.old) }
{
    let t = next_cell(cells, words)?;
    let a = next_cell(cells, words)?;
    let b = next_cell(cells, words)?;
    let Some(third) = words.word() else {
        let ins = Ins::Two(a, b);
        return Some(Instr::Nor { t, ins });
    };
    let c = cells.cell(third)?;
    let Some(fourth) = words.word() else {
        let ins = Ins::Three(a, b, c);
        return Some(Instr::Nor { t, ins });
    };
    let d = cells.cell(fourth)?;
    let ins = Ins::Four(a, b, c, d);
    closed(Instr::Nor { t, ins }, words)
}

/// An RM3.
#[tactic(auto, unfolding(crate::specs::InstrForms::rm3_of))]
fn rm3<'a, C: CellWords, W: WordWalk<'a>>(cells: &C, words: &mut W) -> Option<Instr>
    ensures { result ≡ rm3_of (C.cell_of cells.now) (W.left words.old) }
{
    let p = next_operand(cells, words)?;
    let q = next_operand(cells, words)?;
    let z = next_marked(cells, words)?;
    closed(Instr::Rm3 { p, q, z }, words)
}

/// The instruction of a first word and of the words that follow it. Linear in them.
pub fn instr_from<'a, C: CellWords, W: WordWalk<'a>>(
    alloc: Global,
    cells: &C,
    word: &[u8],
    words: &mut W,
) -> Result<Option<Instr>, NoMemory>
    ensures { IfOk result (λ instr. instr ≡ instr_from (C.cell_of cells.now) word.now (W.left words.old)) }
{
    if is_text(word, b"init") {
        init(alloc, cells, words)
    } else if is_text(word, b"not") {
        Ok(not(cells, words))
    } else if is_text(word, b"nor") {
        Ok(nor(cells, words))
    } else if is_text(word, b"rm3") {
        Ok(rm3(cells, words))
    } else {
        Ok(None)
    }
}

/// The instruction of a line of a program file. Linear in its length.
#[tactic(auto, unfolding(crate::specs::InstrForms::instr_of))]
pub fn line_instr(alloc: Global, line: &[u8]) -> Result<Option<Instr>, NoMemory>
    ensures { IfOk result (λ instr. instr ≡ instr_of line.now) }
{
    let mut fields = Fields::new(line);
    let Some(word) = fields.word() else {
        return Ok(None);
    };
    instr_from(alloc, &PlainNumbers, word, &mut fields)
}
