ghost use Rattle.std.specs.Prelude.{◌≡◌, ◌+◌, ◌≤◌, ◌<◌, ℕ, length, drop, take, IfOk};
ghost use Rattle.std.specs.Str.{bytes_eq};
ghost use Rattle.pim_io.specs.Codes.{code_at, code_of};
ghost use Rattle.pim_io.specs.Names.{IsLabel};
ghost use Rattle.pim_io.specs.Readings.{Gives};
ghost use Rattle.pim_io.specs.declared.limits.TheConstants.{MAX_PROGRAM};
ghost use Rattle.pim_file.specs.Items.{Cursor, further, wrong_before, byte_at, shown_at, number_at, is_label_length, length_at, many};
ghost use Rattle.pim_file.specs.BinaryReading.{target_at, port_at};
ghost use Rattle.pim_text.specs.PortLines.{port_view};

use crate::fault::FileFault;
use pim_io::{Code, MAX_NAME, get_code};
use pim_isa::Target;
use pim_text::PortLine;
use std::marker::Model;

/// A walk over the items of a binary program file: the bytes that are left, and the place of the first of them. It hands out
/// slices of the bytes, and copies nothing.
#[derive(Debug, Drop)]
pub(crate) struct Items<'a> {
    rest: &'a [u8],
    place: u32,
}

impl<'a> Model for Items<'a> {
    ghost use Rattle.std.specs.Prelude.{◌+◌, ◌≤◌, ◌<◌, length};
    ghost use Rattle.pim_io.specs.declared.limits.TheConstants.{MAX_PROGRAM};
    ghost use Rattle.pim_file.specs.Items.{Cursor};

    ghost Value = { Cursor };

    ghost view = { λ i. record { place = i.place; rest = i.rest.now } };

    ghost invariant = { λ i. (0 < i.place) × (i.place + length i.rest.now ≤ MAX_PROGRAM) };
}

impl<'a> Items<'a> {
    /// A walk that stands behind the first `place` bytes of a file.
    pub(crate) fn new(bytes: &'a [u8], place: u32) -> Items<'a>
        requires some { 0 < place }
        requires within { place ≤ length bytes.now }
        requires short { length bytes.now ≤ MAX_PROGRAM }
        ensures { result ≡ record { place = place; rest = drop place bytes.now } }
    {
        Items {
            rest: &bytes[place as usize..],
            place,
        }
    }

    /// The bytes that are left.
    pub(crate) fn rest(&self) -> &'a [u8]
        ensures { result.now ≡ self.now.rest }
    {
        self.rest
    }

    /// The place of the first byte that is left.
    pub(crate) fn place(&self) -> u32
        ensures { result ≡ self.now.place }
    {
        self.place
    }

    /// The fault of a wrong item whose last byte was just read.
    pub(crate) fn wrong(&self) -> FileFault
        ensures { result ≡ wrong_before self.now }
    {
        FileFault::Byte(self.place - 1)
    }

    /// Goes on by some bytes that are there.
    fn skip(&mut self, count: usize)
        requires { count ≤ length self.old.rest }
        ensures { self.new ≡ further count self.old }
    {
        self.rest = &self.rest[count..];
        self.place += count as u32;
    }

    /// The next byte.
    pub(crate) fn byte(&mut self) -> Result<u8, FileFault>
        ensures { Gives FileFault.NoMemory (λ byte. (byte, self.new)) result (byte_at self.old) }
    {
        let Some((byte, _)) = self.rest.split_first() else {
            return Err(FileFault::Truncated);
        };
        self.skip(1);
        Ok(*byte)
    }

    /// The target.
    #[tactic(auto, unfolding(crate::specs::BinaryReading::target_at))]
    pub(crate) fn target(&mut self) -> Result<Target, FileFault>
        ensures { Gives FileFault.NoMemory (λ target. (target, self.new)) result (target_at self.old) }
    {
        match self.byte()? {
            0 => Ok(Target::Magic),
            1 => Ok(Target::Plim),
            _ => Err(self.wrong()),
        }
    }

    /// The next number, a seven-bit code in its shortest spelling. In at most five steps.
    #[tactic(auto, unfolding(crate::specs::Items::number_at))]
    pub(crate) fn number(&mut self) -> Result<u32, FileFault>
        ensures { Gives FileFault.NoMemory (λ number. (number, self.new)) result (number_at self.old) }
    {
        match get_code(self.rest, 0) {
            Code::Got { value, next } => {
                let shortest = is_shortest(self.rest, next);
                self.skip(next);
                if shortest {
                    Ok(value)
                } else {
                    Err(self.wrong())
                }
            }
            Code::Long => Err(FileFault::Byte(self.place + 4)),
            Code::Short => Err(FileFault::Truncated),
        }
    }

    /// The length of a label.
    #[tactic(auto, unfolding(crate::specs::Items::length_at))]
    fn length(&mut self) -> Result<u32, FileFault>
        ensures { Gives FileFault.NoMemory (λ length. (length, self.new)) result (length_at self.old) }
    {
        let length = self.number()?;
        if length >= 1 && length as usize <= MAX_NAME {
            Ok(length)
        } else {
            Err(self.wrong())
        }
    }

    /// The next byte of a label.
    #[tactic(auto, unfolding(crate::specs::Items::shown_at))]
    fn shown(&mut self) -> Result<u8, FileFault>
        ensures { Gives FileFault.NoMemory (λ byte. (byte, self.new)) result (shown_at self.old) }
    {
        let byte = self.byte()?;
        if byte >= 32 && byte != 127 {
            Ok(byte)
        } else {
            Err(self.wrong())
        }
    }

    /// That many bytes of a label. Linear in them.
    fn label(&mut self, count: u32) -> Result<&'a [u8], FileFault>
        ensures { Gives FileFault.NoMemory (λ label. (label.now, self.new)) result (many shown_at count self.old) }
    {
        let bytes = self.rest;
        for _ in 0..count {
            self.shown()?;
        }
        Ok(&bytes[..count as usize])
    }

    /// A port: its cell, the length of its label, and the label. Linear in the label.
    #[tactic(auto, unfolding(crate::specs::BinaryReading::port_at))]
    pub(crate) fn port(&mut self) -> Result<PortLine<'a>, FileFault>
        ensures exact { Gives FileFault.NoMemory (λ port. (port_view port, self.new)) result (port_at self.old) }
        ensures label { IfOk result (λ port. IsLabel port.label.now) }
    {
        let cell = self.number()?;
        let length = self.length()?;
        let label = self.label(length)?;
        Ok(PortLine { cell, label })
    }
}

/// Whether the code that the bytes begin with, up to this place, is the shortest of its number: its last byte is not 0, or it is
/// the only one.
fn is_shortest(bytes: &[u8], next: usize) -> bool
    requires some { 0 < next }
    requires within { next ≤ length bytes.now }
    ensures { (value : ℕ) → code_at bytes.now 0 ≡ Code.Got value next
        → result ≡ bytes_eq (take next bytes.now) (code_of value) }
{
    next == 1 || bytes[next - 1] != 0
}
