ghost use Rattle.std.specs.Prelude.{◌≡◌, ℕ, List, Option};
ghost use Rattle.pim_text.specs.Fields.{plain_number};

use crate::fields::plain_number;

/// How a word of an instruction stands for a cell.
pub trait CellWords {
    /// The cell that a word stands for, if it stands for one.
    ghost cell_of: { Self → List ℕ → Option ℕ };

    /// The cell that a word stands for, if it stands for one.
    fn cell(&self, word: &[u8]) -> Option<u32>
        ensures { result ≡ cell_of self.now word.now };
}

/// The words for cells in a program file: plain numbers.
#[derive(Clone, Copy, Debug)]
pub struct PlainNumbers;

impl CellWords for PlainNumbers {
    ghost cell_of = { λ _ word. plain_number word };

    fn cell(&self, word: &[u8]) -> Option<u32> {
        plain_number(word)
    }
}
