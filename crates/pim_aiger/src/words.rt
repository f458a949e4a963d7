ghost use Rattle.std.specs.Prelude.{◌≡◌, option_map};
ghost use Rattle.pim_io.specs.Words.{words};
ghost use Rattle.pim_aiger.specs.Numbers.{one_number, three_numbers, are_zeros, header_numbers};
ghost use Rattle.pim_aiger.specs.inner.Views.{header_view};

use crate::header::Header;
use pim_io::{Words, number};

/// The number of a line of one word.
pub(crate) fn one_number(text: &[u8]) -> Option<u32>
    ensures { result ≡ one_number (words text.now) }
{
    let mut words = Words::new(text);
    let only = words.word()?;
    if words.word().is_some() {
        return None;
    }
    number(only)
}

/// The numbers of a line of three words.
pub(crate) fn three_numbers(text: &[u8]) -> Option<(u32, u32, u32)>
    ensures { result ≡ three_numbers (words text.now) }
{
    let mut words = Words::new(text);
    let first = words.word()?;
    let second = words.word()?;
    let third = words.word()?;
    if words.word().is_some() {
        return None;
    }
    Some((number(first)?, number(second)?, number(third)?))
}

/// The numbers of a header line, without its tag: M I L O A, and at most four further numbers, which are 0.
pub(crate) fn header_numbers(text: &[u8]) -> Option<Header>
    ensures { option_map header_view result ≡ header_numbers (words text.now) }
{
    let mut words = Words::new(text);
    let greatest = words.word()?;
    let inputs = words.word()?;
    let latches = words.word()?;
    let outputs = words.word()?;
    let gates = words.word()?;
    let header = Header {
        greatest: number(greatest)?,
        inputs: number(inputs)?,
        latches: number(latches)?,
        outputs: number(outputs)?,
        gates: number(gates)?,
    };
    if are_zeros(words) { Some(header) } else { None }
}

/// Later versions of the format have this many further numbers in their header.
const FURTHER: u32 = 4;

/// Whether at most four words are left, each of which spells 0.
fn are_zeros(mut further: Words) -> bool
    ensures { result ≡ are_zeros 4 (words further.entry) }
{
    for _ in 0..FURTHER {
        let Some(word) = further.word() else {
            return true;
        };
        if number(word) != Some(0) {
            return false;
        }
    }
    further.word().is_none()
}
