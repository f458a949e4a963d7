ghost use Rattle.std.specs.Prelude.{◌≡◌, ℕ, ◌∷◌, ◌<◌, ◌≤◌, ◌^◌, [], true, false, length, slice_index, IfSome, MatchOption};
ghost use Rattle.pim_io.specs.Lines.{line_view, lines_left, after_line, is_newline, text_of, without_return};

use memchr::memchr;
use std::marker::Model;

/// A line of bytes: its number, from 1; the place of its first byte, from 0; its bytes, without the newline; and whether
/// there was a newline.
#[derive(Clone, Copy, Debug)]
pub struct Line<'a> {
    pub number: u32,
    pub start: u32,
    pub text: &'a [u8],
    pub ended: bool,
}

/// A walk over the lines of bytes, in order. It hands out slices of the bytes, and copies nothing.
#[derive(Debug, Drop)]
pub struct Scan<'a> {
    rest: &'a [u8],
    given: u32,
    start: u32,
}

impl<'a> Model for Scan<'a> {
    ghost use Rattle.std.specs.Prelude.{◌+◌, ◌≤◌, ◌<◌, ◌^◌, length};
    ghost use Rattle.pim_io.specs.Lines.{ScanView};

    ghost Value = { ScanView };

    ghost view = { λ s. record { rest = s.rest.now; number = s.given + 1; start = s.start } };

    ghost invariant = { λ s. (s.given ≤ s.start) × (s.start + length s.rest.now < 2 ^ 32) };
}

impl<'a> Scan<'a> {
    /// A walk that begins at the first line of the bytes.
    pub fn new(bytes: &'a [u8]) -> Scan<'a>
        requires { length bytes.now < 2 ^ 32 }
        ensures { result ≡ record { rest = bytes.now; number = 1; start = 0 } }
    {
        Scan {
            rest: bytes,
            given: 0,
            start: 0,
        }
    }

    /// The next line, and `None` exactly at the end. Linear in the length of the line.
    pub fn line(&mut self) -> Option<Line<'a>>
        ensures lines { MatchOption result
            (lines_left self.old ≡ [])
            (λ line. lines_left self.old ≡ line_view line ∷ lines_left self.new) }
        ensures end { MatchOption result (self.old.rest ≡ []) (λ line. 0 < length self.old.rest) }
        ensures after { MatchOption result
            (self.new ≡ self.old)
            (λ line. self.new ≡ after_line self.old (line_view line)) }
        ensures shorter { IfSome result (λ line. length self.new.rest < length self.old.rest) }
    {
        let bytes = self.rest;
        if bytes.is_empty() {
            return None;
        }
        let number = self.given + 1;
        let start = self.start;
        self.given = number;
        let len = line_len(bytes);
        if len < bytes.len() {
            self.rest = &bytes[len + 1..];
            self.start = start + len as u32 + 1;
            return Some(Line {
                number,
                start,
                text: &bytes[..len],
                ended: true,
            });
        }
        self.rest = &[];
        self.start = start + len as u32;
        Some(Line {
            number,
            start,
            text: bytes,
            ended: false,
        })
    }
}

/// The text of a line: a carriage return right before its newline is no part of it.
pub fn text_of<'a>(line: &Line<'a>) -> &'a [u8]
    ensures { result.now ≡ text_of (line_view line.now) }
{
    if line.ended {
        without_return(line.text)
    } else {
        line.text
    }
}

/// A text without the carriage return that it ends in.
pub fn without_return(text: &[u8]) -> &[u8]
    ensures { result.now ≡ without_return text.now }
{
    let length = text.len();
    if length > 0 && text[length - 1] == b'\r' {
        return &text[..length - 1];
    }
    text
}

/// How many bytes stand before the first newline.
fn line_len(bytes: &[u8]) -> usize
    ensures within { result ≤ length bytes.now }
    ensures before { (k : ℕ) → k < result → is_newline (slice_index bytes.now k) ≡ false }
    ensures found { result < length bytes.now → is_newline (slice_index bytes.now result) ≡ true }
{
    match memchr(b'\n', bytes) {
        Some(len) => len,
        None => bytes.len(),
    }
}
