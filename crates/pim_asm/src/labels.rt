ghost use Rattle.std.specs.Prelude.{◌≡◌, ◌<◌, ◌∷◌, length, IfOk, IfSome, MatchOption, None, option_map};
ghost use Rattle.std.specs.Option.{option_copied};
ghost use Rattle.pim_asm.specs.Labels.{hex_value, is_clear, unescaped, unquoted, label_of};
ghost use Rattle.pim_asm.specs.Labels as labels;

use pim_io::{Name, NoMemory, is_label};
use std::alloc::Global;

/// The value of a hexadecimal digit, whose letters are lower case.
fn hex_value(b: u8) -> Option<u8>
    ensures value { result ≡ hex_value b }
    ensures small { IfSome result (λ value. value < 16) }
{
    match b {
        b'0'..=b'9' => Some(b - b'0'),
        b'a'..=b'f' => Some(b - b'a' + 10),
        _ => None,
    }
}

/// Whether a byte stands for itself between quotes.
pub(crate) fn is_clear(b: u8) -> bool
    ensures { result ≡ is_clear b }
{
    b >= 32 && b <= 126 && b != b'"' && b != b'\\'
}

/// The byte that the two digits at the front of a text stand for, and the text behind them.
fn escape(text: &[u8]) -> Option<(u8, &[u8])>
    ensures byte { MatchOption result
        (unescaped labels.Escape text.now ≡ None)
        (λ r. unescaped labels.Escape text.now ≡ option_map (λ bytes. r.0 ∷ bytes) (unescaped labels.Between r.1.now)) }
    ensures shorter { IfSome result (λ r. length r.1.now < length text.now) }
{
    if text.len() < 2 {
        return None;
    }
    let high = hex_value(text[0])?;
    let low = hex_value(text[1])?;
    Some((high * 16 + low, &text[2..]))
}

/// The bytes that a text between quotes stands for. Linear in its length.
fn unescape(alloc: Global, text: &[u8]) -> Result<Option<Vec<u8>>, NoMemory>
    ensures { IfOk result (λ bytes. option_map (λ v. v.items) bytes ≡ unescaped labels.Between text.now) }
{
    let mut bytes = Vec::new(alloc);
    let mut rest = text;
    while let Some((b, tail)) = rest.split_first() {
        if is_clear(*b) {
            bytes.push(*b)?;
            rest = tail;
        } else if *b == b'\\' {
            let Some((byte, behind)) = escape(tail) else {
                return Ok(None);
            };
            bytes.push(byte)?;
            rest = behind;
        } else {
            return Ok(None);
        }
    }
    Ok(Some(bytes))
}

/// What stands between the quotes that a word begins and ends with.
fn unquoted(word: &[u8]) -> Option<&[u8]>
    ensures { option_copied result ≡ unquoted word.now }
{
    if word.len() >= 2 && word[0] == b'"' && word[word.len() - 1] == b'"' {
        Some(&word[1..word.len() - 1])
    } else {
        None
    }
}

/// The label that a word in quotes stands for. Linear in the word.
pub(crate) fn label(alloc: Global, word: &[u8]) -> Result<Option<Name>, NoMemory>
    ensures { IfOk result (λ label. label ≡ label_of word.now) }
{
    let Some(text) = unquoted(word) else {
        return Ok(None);
    };
    let Some(bytes) = unescape(alloc, text)? else {
        return Ok(None);
    };
    if !is_label(&bytes) {
        return Ok(None);
    }
    Ok(Some(Name::label(alloc, &bytes)?))
}
