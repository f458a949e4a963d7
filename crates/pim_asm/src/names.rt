ghost use Rattle.std.specs.Prelude.{◌≡◌, [], ◌∷◌, ◌++◌, None, if◌then◌else◌, is_some, IfOk, Some, Option};
ghost use Rattle.std.specs.List.{list_all};
ghost use Rattle.pim_asm.specs.Names.{begins_name, is_name_byte, is_name, cell_named, with_name, known_cell, any_cell};
ghost use Rattle.pim_asm.specs.inner.Defined.{defined};

use indexmap::IndexMap;
use pim_io::{NoMemory, number};
use pim_text::CellWords;
use std::alloc::Global;
use std::marker::Model;

/// Whether a name may begin with a byte.
fn begins_name(b: u8) -> bool
    ensures { result ≡ begins_name b }
{
    (b >= b'a' && b <= b'z') || (b >= b'A' && b <= b'Z') || b == b'_'
}

/// Whether a byte may stand in a name.
fn is_name_byte(b: u8) -> bool
    ensures { result ≡ is_name_byte b }
{
    begins_name(b) || (b >= b'0' && b <= b'9')
}

/// Whether each byte may stand in a name.
fn are_name_bytes(bytes: &[u8]) -> bool
    ensures { result ≡ list_all is_name_byte bytes.now }
{
    bytes.iter().all(|b| is_name_byte(*b))
}

/// Whether a word is a name: a letter or a low line, then letters, low lines and digits, 64 bytes at most.
pub(crate) fn is_name(word: &[u8]) -> bool
    ensures { result ≡ is_name word.now }
{
    match word.split_first() {
        None => false,
        Some((first, others)) => {
            begins_name(*first) && others.len() <= 63 && are_name_bytes(others)
        }
    }
}

/// The names that are defined, each with its cell, in order. It holds slices of the text, and copies nothing.
#[derive(Drop)]
pub(crate) struct Names<'a> {
    cells: IndexMap<&'a [u8], u32>,
}

impl<'a> Model for Names<'a> {
    ghost use Rattle.std.specs.Prelude.{ℕ, List};
    ghost use Rattle.pim_asm.specs.inner.Defined.{defined};

    ghost Value = { List (List ℕ × ℕ) };

    ghost view = { λ n. defined n.cells.entries };
}

impl<'a> Names<'a> {
    /// No names. It takes no memory.
    pub(crate) fn new(alloc: Global) -> Names<'a>
        ensures { result ≡ [] }
    {
        Names {
            cells: IndexMap::new(alloc),
        }
    }

    /// The cell of a name. Expected constant time, beside the length of the name.
    fn cell(&self, name: &[u8]) -> Option<u32>
        ensures { result ≡ cell_named self.now name.now }
    {
        self.cells.get(&name).copied()
    }

    /// Defines a name, if it isn't defined yet. Expected constant time, beside the length of the name.
    pub(crate) fn define(&mut self, name: &'a [u8], cell: u32) -> Result<bool, NoMemory>
        ensures { IfOk result (λ fresh. with_name self.old name.now cell ≡ (if fresh then Some self.new else None)) }
    {
        if self.cell(name).is_some() {
            return Ok(false);
        }
        self.cells.insert(name, cell)?;
        Ok(true)
    }
}

/// The words for cells where these names are defined: names and numbers.
#[derive(Drop)]
pub(crate) struct KnownCells<'n, 'a> {
    pub(crate) names: &'n Names<'a>,
}

impl<'n, 'a> CellWords for KnownCells<'n, 'a> {
    ghost cell_of = { λ k word. known_cell k.names.now word };

    fn cell(&self, word: &[u8]) -> Option<u32> {
        if is_name(word) {
            self.names.cell(word)
        } else {
            number(word)
        }
    }
}

/// The words for cells where every name is defined: which cell a name stands for is of no account.
#[derive(Drop)]
pub(crate) struct AnyCells;

impl CellWords for AnyCells {
    ghost cell_of = { λ _ word. any_cell word };

    fn cell(&self, word: &[u8]) -> Option<u32> {
        if is_name(word) { Some(0) } else { number(word) }
    }
}
