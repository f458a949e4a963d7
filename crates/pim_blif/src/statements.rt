ghost use Rattle.std.specs.Prelude.{◌≡◌, ◌+◌, ◌*◌, ◌<◌, ◌≤◌, ◌∷◌, [], None, length, IfOk, IfSome, MatchOption};
ghost use Rattle.pim_io.specs.Lines.{lines, lines_left};
ghost use Rattle.pim_io.specs.declared.limits.TheConstants.{MAX_PROGRAM};
ghost use Rattle.pim_blif.specs.Statements.{stated, statements_after};
ghost use Rattle.pim_blif.specs.inner.Reading.{room, statements_left};

use crate::line::add_line;
use crate::word::Word;
use pim_io::{NoMemory, Scan};
use std::alloc::Global;
use std::marker::Model;

/// A walk over the statements of bytes, in order: the words of the lines without their comments, where a line that ends in a
/// backslash goes on in the next. It hands out slices of the bytes, and copies nothing.
#[derive(Debug, Drop)]
pub(crate) struct Statements<'a> {
    scan: Scan<'a>,
    words: Vec<Word<'a>>,
}

impl<'a> Model for Statements<'a> {
    ghost use Rattle.pim_io.specs.Lines.{lines_left};
    ghost use Rattle.pim_blif.specs.inner.Reading.{StatementsView};

    ghost Value = { StatementsView };

    ghost view = { λ s. record { words = s.words.items; lines = lines_left s.scan } };
}

impl<'a> Statements<'a> {
    /// A walk that stands before the first statement of the bytes. It takes no memory.
    #[tactic(auto, using(crate::proofs::Rooms::room_of_lines))]
    pub(crate) fn new(alloc: Global, bytes: &'a [u8]) -> Statements<'a>
        requires { length bytes.now ≤ MAX_PROGRAM }
        ensures start { result ≡ record { words = []; lines = lines bytes.now } }
        ensures room { room result.lines ≤ length bytes.now + 1 }
    {
        Statements {
            scan: Scan::new(bytes),
            words: Vec::new(alloc),
        }
    }

    /// Goes to the next statement, and gives the number of the line that it begins in; `None` exactly at the end. Linear in
    /// the lines that it passes. After a refusal the walk stands somewhere between here and the end.
    #[tactic(auto, using(crate::proofs::Rooms::stated_none, crate::proofs::Rooms::stated_some))]
    pub(crate) fn advance(&mut self) -> Result<Option<u32>, NoMemory>
        ensures statement { IfOk result (λ next. MatchOption next
            (statements_left self.old ≡ [])
            (λ line. statements_left self.old
            ≡ record { line = line; words = self.new.words } ∷ statements_left self.new)) }
        ensures some { IfOk result (λ next. IfSome next (λ line. 0 < length self.new.words)) }
        ensures few { IfOk result (λ next.
            2 * length self.new.words + room self.new.lines ≤ room self.old.lines) }
    {
        loop {
            let Some(line) = gather(&mut self.scan, &mut self.words)? else {
                return Ok(None);
            };
            if !self.words.is_empty() {
                return Ok(Some(line));
            }
        }
    }

    /// The words of the present statement; none before the first.
    pub(crate) fn words(&self) -> &[Word<'a>]
        ensures { result.now ≡ self.now.words }
    {
        &self.words
    }
}

/// Gathers the words of the next line and of those that are joined to it, and gives the number of the first; `None` exactly
/// at the end. Linear in the lines.
#[tactic(auto, using(crate::proofs::Joins::joins))]
fn gather<'a>(scan: &mut Scan<'a>, words: &mut Vec<Word<'a>>) -> Result<Option<u32>, NoMemory>
    ensures statement { IfOk result (λ next. MatchOption next
        (statements_after None (lines_left scan.old) ≡ [])
        (λ line. statements_after None (lines_left scan.old)
        ≡ stated line words.new.items (statements_after None (lines_left scan.new)))) }
    ensures few { IfOk result (λ next.
        2 * length words.new.items + room (lines_left scan.new) ≤ room (lines_left scan.old)) }
    ensures shorter { IfOk result (λ next. IfSome next (λ line. length scan.new.rest < length scan.old.rest)) }
{
    words.clear();
    let mut begun: Option<u32> = None;
    while let Some(line) = scan.line() {
        let number = begun.unwrap_or(line.number);
        if !add_line(words, line.text)? {
            return Ok(Some(number));
        }
        begun = Some(number);
    }
    Ok(begun)
}
