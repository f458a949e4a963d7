ghost use Rattle.std.specs.Prelude.{◌≡◌};
ghost use Rattle.pim_file.specs.declared.fault.FileFault.TheVariants as faults;

use pim_io::NoMemory;
use pim_isa::Invalid;
use pim_text::TextFault;
use thiserror::Error;

/// Why bytes are no program file: the first fault. Lines are counted from 1, bytes from 0.
///
/// A text is read to its end first: a wrong line comes before the end that is missing, and both before `TooLarge`. The binary
/// form is read item by item, to the first that is wrong or cut, and `TooLarge` comes after all of them and after bytes that
/// stand behind the last item. In both forms `Invalid` comes last.
#[derive(Clone, Copy, Debug, PartialEq, Eq, Error)]
pub enum FileFault {
    /// In the text, this line is the first that may not stand where it stands, or is not spelled as it is to be.
    #[error("a line is wrong")]
    Line(u32),
    /// The draft that the bytes say has this first fault.
    #[error("the program is not valid")]
    Invalid(Invalid),
    /// The program has more than `MAX_CELLS` cells.
    #[error("there are too many cells")]
    TooLarge,
    /// The text ends before its line `end`, or the binary form before an item's last byte.
    #[error("the bytes end too early")]
    Truncated,
    /// In the binary form, the item whose last byte stands at this place is wrong: a kind or a target that there is not, a number
    /// above 32 bits or not in its shortest spelling, a label's length that is 0 or above `MAX_NAME`, or a byte that no label
    /// has. Or it is the place of the first byte behind the last item.
    #[error("a byte is wrong")]
    Byte(u32),
    /// There was no memory.
    #[error("no memory")]
    NoMemory,
}

impl From<NoMemory> for FileFault {
    ghost from_gives = { λ _ fault. fault ≡ faults.NoMemory };

    fn from(_error: NoMemory) -> FileFault {
        FileFault::NoMemory
    }
}

impl From<Invalid> for FileFault {
    ghost from_gives = { λ invalid fault. fault ≡ faults.Invalid invalid };

    fn from(invalid: Invalid) -> FileFault {
        FileFault::Invalid(invalid)
    }
}

impl From<TextFault> for FileFault {
    ghost use Rattle.pim_file.specs.ProgramFile.{file_fault};

    ghost from_gives = { λ text fault. fault ≡ file_fault text };

    fn from(fault: TextFault) -> FileFault {
        match fault {
            TextFault::Line(number) => FileFault::Line(number),
            TextFault::TooLarge => FileFault::TooLarge,
            TextFault::Truncated => FileFault::Truncated,
            TextFault::NoMemory => FileFault::NoMemory,
        }
    }
}
