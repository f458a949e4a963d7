ghost use Rattle.std.specs.Prelude.{◌≡◌, ◌+◌, ◌*◌, ◌≤◌, ◌++◌, length, IfOk, OnOk};
ghost use Rattle.std.specs.List.{before_first, position_or_len, position};
ghost use Rattle.pim_io.specs.Words.{is_blank, words};
ghost use Rattle.pim_blif.specs.Statements.{is_hash, trimmed, content, goes_on, words_of};

use crate::word::Word;
use pim_io::{NoMemory, Words, is_blank};

/// Appends the words of a line, at most half as many as it has bytes, and tells whether the next line is joined to it. Linear
/// in the line.
#[tactic(auto, using(crate::proofs::Joins::joined_few))]
pub(crate) fn add_line<'a>(words: &mut Vec<Word<'a>>, line: &'a [u8]) -> Result<bool, NoMemory>
    ensures words { OnOk result (words.new.items ≡ words.old.items ++ words_of line.now) }
    ensures few { OnOk result (2 * length words.new.items
        ≤ 2 * length words.old.items + length line.now + 1) }
    ensures goes_on { IfOk result (λ joins. joins ≡ goes_on line.now) }
{
    let piece = piece_of(line);
    add_words(words, piece.text)?;
    Ok(piece.goes_on)
}

/// What is left of a line to be cut into words, and whether the next line is joined to it.
#[derive(Clone, Copy)]
struct Piece<'a> {
    text: &'a [u8],
    goes_on: bool,
}

/// A line without its comment and without the backslash that joins the next line.
fn piece_of(line: &[u8]) -> Piece<'_>
    ensures words { words result.text.now ≡ words_of line.now }
    ensures goes_on { result.goes_on ≡ goes_on line.now }
{
    let content = content(line);
    match content.split_last() {
        Some((b'\\', text)) => Piece {
            text,
            goes_on: true,
        },
        _ => Piece {
            text: content,
            goes_on: false,
        },
    }
}

/// What a line holds: its text before the first `#`, without the blanks at the end.
fn content(line: &[u8]) -> &[u8]
    ensures { result.now ≡ content line.now }
{
    trimmed(before_comment(line))
}

/// The text of a line before the first `#`.
fn before_comment(line: &[u8]) -> &[u8]
    ensures { result.now ≡ before_first is_hash line.now }
{
    &line[..comment_start(line)]
}

/// How many bytes of a line stand before the first `#`.
#[tactic(auto, using(crate::proofs::Places::no_place))]
fn comment_start(line: &[u8]) -> usize
    ensures within { result ≤ length line.now }
    ensures start { result ≡ position_or_len is_hash line.now }
{
    match comment_place(line) {
        Some(at) => at,
        None => line.len(),
    }
}

/// The place of the first `#` of a line.
fn comment_place(line: &[u8]) -> Option<usize>
    ensures { result ≡ position is_hash line.now }
{
    line.iter().position(|b| *b == b'#')
}

/// A text without the blanks at its end.
fn trimmed(text: &[u8]) -> &[u8]
    ensures { result.now ≡ trimmed text.now }
{
    let mut end = text.len();
    while end > 0 && is_blank(text[end - 1]) {
        end -= 1;
    }
    &text[..end]
}

/// Appends the words of a text.
fn add_words<'a>(list: &mut Vec<Word<'a>>, text: &'a [u8]) -> Result<(), NoMemory>
    ensures { OnOk result (list.new.items ≡ list.old.items ++ words text.now) }
{
    let mut walk = Words::new(text);
    while let Some(word) = walk.word() {
        list.push(Word::new(word))?;
    }
    Ok(())
}
