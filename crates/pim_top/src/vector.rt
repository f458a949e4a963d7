//! The text of a vector that a note names.
ghost use Rattle.std.specs.Prelude.{◌≡◌, ◌==◌, ◌/◌, ◌%◌, ◌^◌, ◌<◌, ◌≤◌, IfOk};
ghost use Rattle.pim_io.specs.Bits.{digit_of, line_of};
ghost use Rattle.pim_prove.specs.Vectors.{digits};

use pim_io::NoMemory;
use std::alloc::Global;
use std::marker::Model;

/// The characters 0 and 1 of a vector, the first input's first.
#[derive(Debug, Drop)]
pub struct VectorText {
    text: Vec<u8>,
}

impl Model for VectorText {
    ghost use Rattle.std.specs.Prelude.{ℕ, List};

    ghost Value = { List ℕ };

    ghost view = { λ v. v.text.items };
}

impl VectorText {
    /// Vector `number` of so many inputs: the number in binary digits.
    pub(crate) fn numbered(alloc: Global, inputs: u32, number: u32) -> Result<VectorText, NoMemory>
        requires { inputs ≤ 32 }
        ensures { IfOk result (λ vector. vector ≡ line_of (digits inputs number)) }
    {
        let mut text = Vec::new(alloc);
        let mut left = inputs;
        while 0 < left {
            left -= 1;
            text.push(digit_of(number, left))?;
        }
        Ok(VectorText { text })
    }

    /// The characters.
    pub(crate) fn bytes(&self) -> &[u8]
        ensures { result.now ≡ self.now }
    {
        self.text.as_slice()
    }
}

/// The character of the binary digit of a number behind which so many others stand.
fn digit_of(number: u32, behind: u32) -> u8
    requires { behind < 32 }
    ensures { result ≡ digit_of (number / 2 ^ behind % 2 == 1) }
{
    if (number >> behind) % 2 == 1 {
        b'1'
    } else {
        b'0'
    }
}
