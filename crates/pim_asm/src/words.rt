ghost use Rattle.std.specs.Prelude.{◌≡◌, ◌<◌, ◌≤◌, true, false, length, take, drop, slice_index};
ghost use Rattle.pim_io.specs.Words.{is_blank, close};
ghost use Rattle.pim_asm.specs.Words.{ends_word, words};

use pim_io::is_blank;
use pim_text::WordWalk;
use std::marker::Model;

/// A walk over the words of a line of assembly. It hands out slices of the line, and copies nothing.
#[derive(Debug, Drop)]
pub(crate) struct AsmWords<'a> {
    rest: &'a [u8],
}

impl<'a> Model for AsmWords<'a> {
    ghost use Rattle.std.specs.Prelude.{ℕ, List};

    ghost Value = { List ℕ };

    ghost view = { λ w. w.rest.now };
}

impl<'a> AsmWords<'a> {
    /// A walk that begins at the first word of the text.
    pub(crate) fn new(text: &'a [u8]) -> AsmWords<'a>
        ensures { result ≡ text.now }
    {
        AsmWords { rest: text }
    }

    /// The text that is left.
    pub(crate) fn rest(&self) -> &'a [u8]
        ensures { result.now ≡ self.now }
    {
        self.rest
    }
}

impl<'a> WordWalk<'a> for AsmWords<'a> {
    ghost left = { λ w. words w };

    /// Linear in the blanks before the word and in its length.
    fn word(&mut self) -> Option<&'a [u8]> {
        let text = behind_blanks(self.rest);
        let (word, rest) = text.split_at(word_len(text));
        self.rest = rest;
        if word.is_empty() {
            return None;
        }
        Some(word)
    }
}

/// The text behind the blanks that it begins with.
fn behind_blanks(text: &[u8]) -> &[u8]
    ensures words { words result.now ≡ words text.now }
    ensures first { 0 < length result.now → is_blank (slice_index result.now 0) ≡ false }
{
    for (i, b) in text.iter().enumerate() {
        if !is_blank(*b) {
            return &text[i..];
        }
    }
    &[]
}

/// How many bytes stand before the first blank or semicolon outside of quotes.
fn word_len(text: &[u8]) -> usize
    ensures within { result ≤ length text.now }
    ensures words { words text.now ≡ close (take result text.now) (words (drop result text.now)) }
    ensures stops { result < length text.now → ends_word false (slice_index text.now result) ≡ true }
{
    let mut quoted = false;
    for (i, b) in text.iter().enumerate() {
        if *b == b'"' {
            quoted = !quoted;
        } else if !quoted && (is_blank(*b) || *b == b';') {
            return i;
        }
    }
    text.len()
}
