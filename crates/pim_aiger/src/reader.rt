ghost use Rattle.std.specs.Prelude.{◌≡◌, ◌+◌, ◌≤◌, length, drop};
ghost use Rattle.pim_aiger.specs.Cursor.{Cursor, end_of, further};
ghost use Rattle.pim_io.specs.Readings.{Gives};
ghost use Rattle.pim_aiger.specs.TextLines.{line_at};
ghost use Rattle.pim_io.specs.declared.limits.TheConstants.{MAX_PROGRAM};

use crate::fault::AigerFault;
use pim_io::{Scan, without_return};
use std::marker::Model;

mod codes;
mod text;

/// Where a reading stands: the bytes that are left, and the place of the first of them. It hands out slices of the bytes.
#[derive(Debug, Drop)]
pub(crate) struct Reader<'a> {
    rest: &'a [u8],
    place: u32,
}

impl<'a> Model for Reader<'a> {
    ghost use Rattle.std.specs.Prelude.{◌+◌, ◌≤◌, length};
    ghost use Rattle.pim_io.specs.declared.limits.TheConstants.{MAX_PROGRAM};
    ghost use Rattle.pim_aiger.specs.Cursor.{Cursor};

    ghost Value = { Cursor };

    ghost view = { λ r. record { place = r.place; rest = r.rest.now } };

    ghost invariant = { λ r. r.place + length r.rest.now ≤ MAX_PROGRAM };
}

impl<'a> Reader<'a> {
    /// A reading that stands behind the first `place` bytes of a file.
    pub(crate) fn new(bytes: &'a [u8], place: u32) -> Reader<'a>
        requires within { place ≤ length bytes.now }
        requires short { length bytes.now ≤ MAX_PROGRAM }
        ensures { result ≡ record { place = place; rest = drop place bytes.now } }
    {
        Reader {
            rest: &bytes[place as usize..],
            place,
        }
    }

    /// The bytes that are left.
    pub(crate) fn rest(&self) -> &'a [u8]
        ensures { result.now ≡ self.now.rest }
    {
        self.rest
    }

    /// The place of the first byte that is left.
    pub(crate) fn place(&self) -> u32
        ensures place { result ≡ self.now.place }
        ensures short { result + length self.now.rest ≤ MAX_PROGRAM }
    {
        self.place
    }

    /// The fault of bytes that end too early.
    fn truncated(&self) -> AigerFault
        ensures { result ≡ AigerFault.Truncated (end_of self.now) }
    {
        AigerFault::Truncated(self.place + self.rest.len() as u32)
    }

    /// Goes on by some bytes that are there.
    fn skip(&mut self, count: usize)
        requires { count ≤ length self.old.rest }
        ensures { self.new ≡ further count self.old }
    {
        self.rest = &self.rest[count..];
        self.place += count as u32;
    }

    /// The text of the next line, which has to end in a newline; a carriage return before it is dropped.
    #[tactic(auto, using(crate::proofs::FirstLine::first_line_fits), unfolding(crate::specs::TextLines::line_at))]
    pub(crate) fn line(&mut self) -> Result<&'a [u8], AigerFault>
        ensures { Gives AigerFault.NoMemory (λ text. (text.now, self.new)) result (line_at self.old) }
    {
        let mut scan = Scan::new(self.rest);
        match scan.line() {
            Some(line) if line.ended => {
                self.skip(line.text.len() + 1);
                Ok(without_return(line.text))
            }
            _ => Err(self.truncated()),
        }
    }
}
