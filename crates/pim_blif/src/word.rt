ghost use Rattle.std.specs.Prelude.{◌≡◌, ◌<◌, length};

use std::marker::Model;

/// A word of a statement: one byte or more, which are lent by the file.
#[derive(Debug, Drop)]
pub(crate) struct Word<'a> {
    bytes: &'a [u8],
}

impl<'a> Model for Word<'a> {
    ghost use Rattle.std.specs.Prelude.{◌<◌, ℕ, List, length};

    ghost Value = { List ℕ };

    ghost view = { λ w. w.bytes.now };

    ghost invariant = { λ w. 0 < length w.bytes.now };
}

impl<'a> Word<'a> {
    /// The word of these bytes.
    pub(crate) fn new(bytes: &'a [u8]) -> Word<'a>
        requires { 0 < length bytes.now }
        ensures { result ≡ bytes.now }
    {
        Word { bytes }
    }

    /// Its bytes.
    pub(crate) fn bytes(&self) -> &'a [u8]
        ensures bytes { result.now ≡ self.now }
        ensures some { 0 < length result.now }
    {
        self.bytes
    }
}
