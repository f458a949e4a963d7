ghost use Rattle.std.specs.Prelude.{◌≡◌, [], ◌∷◌, ◌++◌, OnOk, codes, decimal};
ghost use Rattle.pim_text.specs.Text.{counted_text, numbers_text};

use itoa::Buffer;
use pim_io::NoMemory;
use std::alloc::Global;
use std::marker::Model;

/// A text that grows at its end.
#[derive(Debug, Drop)]
pub struct Text {
    bytes: Vec<u8>,
}

impl Model for Text {
    ghost use Rattle.std.specs.Prelude.{ℕ, List};

    ghost Value = { List ℕ };

    ghost view = { λ t. t.bytes.items };
}

impl Text {
    /// The empty text.
    pub fn new(alloc: Global) -> Text
        ensures { result ≡ [] }
    {
        Text {
            bytes: Vec::new(alloc),
        }
    }

    /// Appends bytes as they are.
    pub fn bytes(&mut self, piece: &[u8]) -> Result<(), NoMemory>
        ensures { OnOk result (self.new ≡ self.old ++ piece.now) }
    {
        self.bytes.extend_from_slice(piece)?;
        Ok(())
    }

    /// Appends a number in decimal, without leading zeros.
    pub fn number(&mut self, number: u32) -> Result<(), NoMemory>
        ensures { OnOk result (self.new ≡ self.old ++ decimal number) }
    {
        let mut digits = Buffer::new();
        self.bytes(digits.format(number).as_bytes())
    }

    /// Appends each number after a space.
    pub fn numbers(&mut self, numbers: &[u32]) -> Result<(), NoMemory>
        ensures { OnOk result (self.new ≡ self.old ++ numbers_text numbers.now) }
    {
        for number in numbers {
            self.bytes(b" ")?;
            self.number(*number)?;
        }
        Ok(())
    }

    /// Appends a word and each number after a space.
    pub fn statement(&mut self, word: &[u8], numbers: &[u32]) -> Result<(), NoMemory>
        ensures { OnOk result (self.new ≡ self.old ++ word.now ++ numbers_text numbers.now) }
    {
        self.bytes(word)?;
        self.numbers(numbers)
    }

    /// Appends a word, a number and a newline.
    pub fn counted(&mut self, word: &[u8], number: u32) -> Result<(), NoMemory>
        ensures { OnOk result (self.new ≡ self.old ++ counted_text word.now number) }
    {
        self.bytes(word)?;
        self.number(number)?;
        self.bytes(b"\n")
    }

    /// The bytes of the text.
    pub fn into_bytes(self) -> Vec<u8>
        ensures { result.items ≡ self }
    {
        self.bytes
    }
}
