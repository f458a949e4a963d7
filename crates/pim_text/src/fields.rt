ghost use Rattle.std.specs.Prelude.{◌≡◌, ℕ, List, ◌∷◌, [], Some, MatchOption};
ghost use Rattle.std.specs.Option.{option_copied};
ghost use Rattle.std.specs.Str.{bytes_eq};
ghost use Rattle.pim_text.specs.Fields.{behind, plain_number};
ghost use Rattle.pim_text.specs.inner.FieldWalks.{fields_left};

use pim_io::first_space;
use std::marker::Model;

/// Whether a text is this one.
pub fn is_text(text: &[u8], other: &[u8]) -> bool
    ensures { result ≡ bytes_eq text.now other.now }
{
    text == other
}

/// What stands behind this front of a line.
pub fn behind<'a>(front: &[u8], line: &'a [u8]) -> Option<&'a [u8]>
    ensures { option_copied result ≡ behind front.now line.now }
{
    line.strip_prefix(front)
}

/// The number below 2^32 that a word spells in decimal, without leading zeros.
#[tactic(auto, unfolding(crate::specs::Fields::plain_number))]
pub fn plain_number(word: &[u8]) -> Option<u32>
    ensures { result ≡ plain_number word.now }
{
    if word.len() > 1 && word[0] == b'0' {
        return None;
    }
    pim_io::number(word)
}

/// A walk over the words of a line, in order.
pub trait WordWalk<'a> {
    /// The words that are left.
    ghost left: { Self → List (List ℕ) };

    /// The next word, and `None` exactly at the end.
    fn word(&mut self) -> Option<&'a [u8]>
        ensures { MatchOption result
            (left self.old ≡ [])
            (λ word. left self.old ≡ word.now ∷ left self.new) };
}

/// A walk over the fields of a text, which single spaces separate. It hands out slices of the text, and copies nothing.
#[derive(Debug, Drop)]
pub struct Fields<'a> {
    rest: Option<&'a [u8]>,
}

impl<'a> Model for Fields<'a> {
    ghost use Rattle.std.specs.Prelude.{ℕ, List, Option};
    ghost use Rattle.std.specs.Option.{option_copied};

    ghost Value = { Option (List ℕ) };

    ghost view = { λ f. option_copied f.rest };
}

impl<'a> Fields<'a> {
    /// A walk that begins at the first field of the text.
    pub fn new(text: &'a [u8]) -> Fields<'a>
        ensures { result ≡ Some text.now }
    {
        Fields { rest: Some(text) }
    }
}

impl<'a> WordWalk<'a> for Fields<'a> {
    ghost left = { λ f. fields_left f };

    /// The next field, and `None` exactly at the end. Linear in its length.
    #[tactic(auto, using(crate::proofs::FieldLemmas::fields_cut_rest, crate::proofs::FieldLemmas::fields_last))]
    fn word(&mut self) -> Option<&'a [u8]> {
        let text = self.rest?;
        match first_space(text) {
            Some(space) => {
                self.rest = Some(&text[space + 1..]);
                Some(&text[..space])
            }
            None => {
                self.rest = None;
                Some(text)
            }
        }
    }
}
