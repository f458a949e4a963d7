ghost use Rattle.std.specs.Prelude.{◌≡◌, ◌+◌, ◌<◌, length, option_map};
ghost use Rattle.pim_blif.specs.Directives.{first_word, directive, arguments};
ghost use Rattle.pim_blif.specs.inner.Found.{directive_view};

use crate::directive::Directive;
use crate::word::Word;
use std::marker::Model;

/// A statement: the number of the line that it begins in, and its words, one or more.
#[derive(Debug, Drop)]
pub(crate) struct Statement<'a, 'b> {
    line: u32,
    words: &'b [Word<'a>],
}

impl<'a, 'b> Model for Statement<'a, 'b> {
    ghost use Rattle.std.specs.Prelude.{◌<◌, length};
    ghost use Rattle.pim_blif.specs.Statements.{Statement as StatementView};

    ghost Value = { StatementView };

    ghost view = { λ s. record { line = s.line; words = s.words.now } };

    ghost invariant = { λ s. 0 < length s.words.now };
}

impl<'a, 'b> Statement<'a, 'b> {
    /// The statement of these words, which begins in this line.
    pub(crate) fn new(line: u32, words: &'b [Word<'a>]) -> Statement<'a, 'b>
        requires { 0 < length words.now }
        ensures { result ≡ record { line = line; words = words.now } }
    {
        Statement { line, words }
    }

    /// The number of the line that it begins in.
    pub(crate) fn line(&self) -> u32
        ensures { result ≡ self.now.line }
    {
        self.line
    }

    /// All its words.
    pub(crate) fn words(&self) -> &'b [Word<'a>]
        ensures words { result.now ≡ self.now.words }
        ensures some { 0 < length result.now }
    {
        self.words
    }

    /// The first word, which tells what it is.
    pub(crate) fn first_word(&self) -> &'a [u8]
        ensures word { result.now ≡ first_word self.now.words }
        ensures some { 0 < length result.now }
    {
        self.words[0].bytes()
    }

    /// The words behind the first.
    pub(crate) fn arguments(&self) -> &'b [Word<'a>]
        ensures words { result.now ≡ arguments self.now }
        ensures count { length result.now + 1 ≡ length self.now.words }
    {
        &self.words[1..]
    }

    /// The directive that it is, if it begins with a dot.
    pub(crate) fn directive(&self) -> Option<Directive>
        ensures { option_map directive_view result ≡ directive self.now }
    {
        Directive::of(self.first_word())
    }
}
