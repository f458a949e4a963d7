ghost use Rattle.std.specs.Prelude.{◌≡◌, ℕ, ◌∷◌, ◌<◌, ◌≤◌, ◌==◌, [], true, false, length, slice_index, IfSome, MatchOption};
ghost use Rattle.std.specs.List.{position};
ghost use Rattle.pim_io.specs.Words.{is_blank, words, number_of};

use std::marker::Model;

/// A walk over the words of a text, in order: its maximal runs without space, tab and carriage return. It hands out slices
/// of the text, and copies nothing.
#[derive(Debug, Drop)]
pub struct Words<'a> {
    rest: &'a [u8],
}

impl<'a> Model for Words<'a> {
    ghost use Rattle.std.specs.Prelude.{ℕ, List};

    ghost Value = { List ℕ };

    ghost view = { λ w. w.rest.now };
}

impl<'a> Words<'a> {
    /// A walk that begins at the first word of the text.
    pub fn new(text: &'a [u8]) -> Words<'a>
        ensures { result ≡ text.now }
    {
        Words { rest: text }
    }

    /// The next word, and `None` exactly at the end. Linear in the blanks before the word and its length.
    pub fn word(&mut self) -> Option<&'a [u8]>
        ensures words { MatchOption result
            (words self.old ≡ [])
            (λ word. words self.old ≡ word.now ∷ words self.new) }
        ensures end { MatchOption result (self.new ≡ []) (λ word. 0 < length word.now) }
        ensures shorter { IfSome result (λ word. length self.new < length self.old) }
    {
        let (_, text) = self.rest.split_at(blanks_len(self.rest));
        let (word, rest) = text.split_at(word_len(text));
        self.rest = rest;
        if word.is_empty() {
            return None;
        }
        Some(word)
    }
}

/// How many blanks a text begins with.
fn blanks_len(text: &[u8]) -> usize
    ensures within { result ≤ length text.now }
    ensures before { (k : ℕ) → k < result → is_blank (slice_index text.now k) ≡ true }
    ensures found { result < length text.now → is_blank (slice_index text.now result) ≡ false }
{
    for (i, b) in text.iter().enumerate() {
        if !is_blank(*b) {
            return i;
        }
    }
    text.len()
}

/// How many bytes stand before the first blank.
fn word_len(text: &[u8]) -> usize
    ensures within { result ≤ length text.now }
    ensures before { (k : ℕ) → k < result → is_blank (slice_index text.now k) ≡ false }
    ensures found { result < length text.now → is_blank (slice_index text.now result) ≡ true }
{
    for (i, b) in text.iter().enumerate() {
        if is_blank(*b) {
            return i;
        }
    }
    text.len()
}

/// Whether a byte is a space, a tab or a carriage return.
pub fn is_blank(b: u8) -> bool
    ensures { result ≡ is_blank b }
{
    b == b' ' || b == b'\t' || b == b'\r'
}

/// Where the first space of a text stands.
pub fn first_space(text: &[u8]) -> Option<usize>
    ensures place { result ≡ position (λ b. b == 32) text.now }
    ensures within { IfSome result (λ k. k < length text.now) }
{
    text.iter().position(|b| *b == b' ')
}

/// The number that a word spells: `Some` exactly for 1 to 10 decimal digits of a value below 2^32. Leading zeros are
/// accepted.
#[tactic(auto, unfolding(crate::specs::Words::number_of))]
pub fn number(word: &[u8]) -> Option<u32>
    ensures { result ≡ number_of word.now }
{
    if word.is_empty() || word.len() > 10 {
        return None;
    }
    let mut value: u64 = 0;
    for digit in word {
        if !digit.is_ascii_digit() {
            return None;
        }
        value = value * 10 + u64::from(*digit - b'0');
    }
    u32::try_from(value).ok()
}
