ghost use Rattle.std.specs.Prelude.{◌≡◌, ◌≢◌, ℕ, ◌+◌, ◌-◌, ◌<◌, ◌≤◌, ◌↔◌, true, length, take, slice_index, List, [], ◌++◌, Some, None, Ok, Err, MatchOption, OnOk, ◌⊎◌, IsTrue, IfOk, IfErr, OnErr};
ghost use Rattle.std.specs.Option.{option_copied};
ghost use Rattle.pim_io.specs.Lines.{is_newline};
ghost use Rattle.pim_io.specs.Outside.{Rose, IsSpent, Told};
ghost use Rattle.pim_vectors.specs.Lines.{line_len};
ghost use Rattle.pim_vectors.specs.Next.{within_limit, handed, next_of};
ghost use Rattle.pim_vectors.specs.inner.Found.{NoNewline, IsFound, IsOver, found_text, whole_len};
ghost use Rattle.pim_vectors.specs.inner.Taken.{Took};
ghost use Rattle.pim_vectors.specs.inner.NextLine.{IsNext, IsEnd};

use crate::bytes;
use crate::fault::LinesFault;
use crate::found::Found;
use crate::limits::MAX_LINES;
use crate::sizes::Sizes;
use pim_io::{MAX_INPUT, NoMemory, Source, without_return};
use std::alloc::Global;
use std::marker::Model;

/// How many bytes the buffer has beside those of the longest line.
const CHUNK: usize = 16_384;

/// The lines of a source, one after another, in one buffer.
#[derive(Debug, Drop)]
pub struct Lines {
    buffer: Vec<u8>,

    // The bytes that were taken and not handed out.
    start: usize,
    end: usize,

    longest: u32,
    given: u32,

    // How many bytes were handed out, with the ends of lines.
    place: u32,
}

impl Model for Lines {
    ghost use Rattle.std.specs.Prelude.{◌-◌, take, drop, vec_len};
    ghost use Rattle.pim_vectors.specs.Next.{LinesView};
    ghost use Rattle.pim_vectors.specs.inner.Kept.{IsBuffer};

    ghost Value = { LinesView };

    ghost view = { λ l. record {
      longest = l.longest;
      given = l.given;
      place = l.place;
      held = take (l.end - l.start) (drop l.start l.buffer.items);
    } };

    ghost invariant = { λ l. IsBuffer l.start l.end (vec_len l.buffer) l.longest l.given l.place };
}

impl Lines {
    ghost use Rattle.std.specs.Borrow.{sem};
    ghost use Rattle.pim_vectors.specs.Lending.{EndsAfter};

    /// A walk over lines of at most so many bytes. Takes memory for one buffer, which is all that it ever takes.
    pub fn new(alloc: Global, longest: u32) -> Result<Lines, NoMemory>
        ensures { IfOk result (λ lines. lines ≡ record { longest = longest; given = 0; place = 0; held = [] }) }
    {
        Ok(Lines {
            buffer: vec![in alloc; 0; longest as usize + CHUNK]?,
            start: 0,
            end: 0,
            longest,
            given: 0,
            place: 0,
        })
    }

    /// How many lines were handed out, at most `MAX_LINES`.
    pub fn given(&self) -> u32
        ensures given { result ≡ self.now.given }
        ensures within { result ≤ MAX_LINES }
    {
        self.given
    }

    /// The next line, without its newline and a carriage return before that, or None at the end of the source. All lines that
    /// were taken are handed out before more bytes are. A last piece without a newline is a line, if it isn't empty. The faults:
    /// `Long` of a line of more bytes than the longest, once its end or two more than the longest of its bytes were taken; `TooMany`
    /// in place of line `MAX_LINES` + 1; `TooLong` where more than `MAX_INPUT` bytes were taken and no line or other fault stands
    /// before the last of these; `Fault` where a read failed before one of these was known. Takes no memory. Linear in the bytes.
    pub fn next<S: Source>(&mut self, source: &mut S) -> Result<Option<&[u8]>, LinesFault>
        ensures line { IfOk result (λ line. Told (S.left source.old) (S.left source.new)
            (λ before now. next_of self.old (self.old.held ++ before) ≡ Ok (option_copied line))) }
        ensures refused { IfErr result (λ fault. fault ≢ LinesFault.Fault → Told (S.left source.old) (S.left source.new)
            (λ before now. next_of self.old (self.old.held ++ before) ≡ Err fault)) }
        ensures steady { OnOk result (S.faults source.new ≡ S.faults source.old) }
        ensures spared { IfErr result (λ fault. fault ≢ LinesFault.Fault → S.faults source.new ≡ S.faults source.old) }
        ensures fault { IfErr result (λ fault. fault ≡ LinesFault.Fault → Rose (S.faults source.old) (S.faults source.new)) }
        ensures never_falls { S.faults source.old ≤ S.faults source.new }

        // Nothing is taken where a newline is held.
        ensures unread { line_len self.old.held < length self.old.held → source.new ≡ source.old }

        ensures* after { sem 𝓛 (EndsAfter self.entry (S.left source.old) (S.left source.new) result) }
    {
        let Some(sizes) = self.next_sizes(source)? else {
            return Ok(None);
        };
        let start = self.start;
        self.start = start + sizes.whole;
        self.place += sizes.whole as u32;
        self.given += 1;
        Ok(Some(&self.buffer[start..start + sizes.text]))
    }

    /// How many of the bytes that are held may belong to lines.
    fn within(&self) -> usize
        ensures { result ≡ length (within_limit self.now self.now.held) }
    {
        (self.end - self.start).min((MAX_INPUT - self.place) as usize)
    }

    /// Whether a byte over the limit was taken.
    fn is_over(&self) -> bool
        ensures over { IsTrue result ↔ (MAX_INPUT - self.now.place < length self.now.held) }
        ensures limit { self.now.place ≤ MAX_INPUT }
    {
        self.end - self.start > (MAX_INPUT - self.place) as usize
    }

    /// The place of the first newline among the bytes that may belong to lines, or their number, where none stands before `seen`.
    fn newline(&self, seen: usize) -> usize
        requires within { seen ≤ length (within_limit self.now self.now.held) }
        requires none { NoNewline self.now.held seen }
        ensures from { seen ≤ result }
        ensures within { result ≤ length (within_limit self.now self.now.held) }
        ensures before { NoNewline self.now.held result }
        ensures found { result < length (within_limit self.now self.now.held) → is_newline (slice_index self.now.held result) ≡ true }
    {
        let len = self.within();
        bytes::newline_from(&self.buffer[self.start..self.start + len], seen)
    }

    /// Whether so many bytes without a newline are too many for a line, whatever follows.
    fn is_long(&self, len: usize) -> bool
        ensures { IsTrue result ↔ (self.now.longest + 2 ≤ len) }
    {
        len >= self.longest as usize + 2
    }

    /// Takes bytes until it is known what the next line is, and returns its sizes, or None at the end.
    fn next_sizes<S: Source>(&mut self, source: &mut S) -> Result<Option<Sizes>, LinesFault>
        ensures took { Took self.old (S.left source.old) (S.left source.new) self.new }
        ensures next { IfOk result (λ next. MatchOption next
            (IsEnd self.new (S.left source.old) (S.left source.new))
            (IsNext self.new (S.left source.old) (S.left source.new))) }
        ensures refused { IfErr result (λ fault. fault ≢ LinesFault.Fault
            → Told (S.left source.old) (S.left source.new) (λ before now. next_of self.new (self.new.held ++ now) ≡ Err fault)) }
        ensures waits { result ≡ Err LinesFault.Fault → NoNewline self.new.held (length self.new.held) }
        ensures short { result ≡ Err LinesFault.Fault → length self.new.held < self.new.longest + 2 }
        ensures limit { result ≡ Err LinesFault.Fault → self.new.place + length self.new.held ≤ MAX_INPUT }
        ensures steady { result ≢ Err LinesFault.Fault → S.faults source.new ≡ S.faults source.old }
        ensures counted { result ≡ Err LinesFault.Fault → Rose (S.faults source.old) (S.faults source.new) }
        ensures never_falls { S.faults source.old ≤ S.faults source.new }
        ensures unread { line_len self.old.held < length self.old.held → source.new ≡ source.old }
    {
        let found = self.find(source)?;
        let sizes = self.sizes(found);
        if sizes.whole == 0 {
            return Ok(None);
        }
        self.judge(sizes.text)?;
        Ok(Some(sizes))
    }

    /// Whether a text of so many bytes may be handed out as the next line.
    fn judge(&self, len: usize) -> Result<(), LinesFault>
        ensures ok { OnOk result ((text : List ℕ) → length text ≡ len → handed self.now text ≡ Ok (Some text)) }
        ensures more { OnOk result (self.now.given < MAX_LINES) }
        ensures fits { OnOk result (len ≤ self.now.longest) }
        ensures refused { IfErr result (λ fault. (text : List ℕ) → length text ≡ len → handed self.now text ≡ Err fault) }
        ensures fault { IfErr result (λ fault. fault ≢ LinesFault.Fault) }
    {
        if self.given == MAX_LINES {
            return Err(LinesFault::TooMany);
        }
        if len > self.longest as usize {
            return Err(LinesFault::Long(self.given + 1));
        }
        Ok(())
    }

    /// How many bytes stand next.
    fn sizes(&self, found: Found) -> Sizes
        requires { whole_len found ≤ length self.now.held }
        ensures text { take result.text self.now.held ≡ found_text self.now found }
        ensures short { result.text ≤ result.whole }
        ensures whole { result.whole ≡ whole_len found }
    {
        match found {
            Found::Line(len) => {
                let text = &self.buffer[self.start..self.start + len];
                Sizes {
                    text: without_return(text).len(),
                    whole: len + 1,
                }
            }
            Found::Rest(len) => Sizes {
                text: len,
                whole: len,
            },
        }
    }

    /// Takes bytes until it is known what stands next, and returns that. It takes none where the bytes that are held have a newline.
    fn find<S: Source>(&mut self, source: &mut S) -> Result<Found, LinesFault>
        ensures took { Took self.old (S.left source.old) (S.left source.new) self.new }
        ensures found { IfOk result (IsFound self.new (S.left source.old) (S.left source.new)) }
        ensures over { result ≡ Err LinesFault.TooLong → IsOver self.new }
        ensures faults { IfErr result (λ fault. (fault ≡ LinesFault.Fault) ⊎ (fault ≡ LinesFault.TooLong)) }
        ensures waits { result ≡ Err LinesFault.Fault → NoNewline self.new.held (length self.new.held) }
        ensures short { result ≡ Err LinesFault.Fault → length self.new.held < self.new.longest + 2 }
        ensures limit { result ≡ Err LinesFault.Fault → self.new.place + length self.new.held ≤ MAX_INPUT }
        ensures steady { result ≢ Err LinesFault.Fault → S.faults source.new ≡ S.faults source.old }
        ensures counted { result ≡ Err LinesFault.Fault → Rose (S.faults source.old) (S.faults source.new) }
        ensures never_falls { S.faults source.old ≤ S.faults source.new }
        ensures unread { line_len self.old.held < length self.old.held → source.new ≡ source.old }
    {
        let mut seen = 0;
        'reading: loop {
            let within = self.within();
            seen = self.newline(seen);
            if seen < within {
                return Ok(Found::Line(seen));
            }
            if self.is_long(seen) {
                return Ok(Found::Rest(seen));
            }
            if self.is_over() {
                return Err(LinesFault::TooLong);
            }
            if self.read_on(source)? == 0 {
                return Ok(Found::Rest(seen));
            }
        }
    }

    /// Reads behind the bytes that are held, and returns how many bytes came: 0 at the end of the source.
    fn read_on<S: Source>(&mut self, source: &mut S) -> Result<usize, LinesFault>
        requires small { length self.old.held < self.old.longest + 2 }
        requires limit { self.old.place + length self.old.held ≤ MAX_INPUT }
        ensures took { Took self.old (S.left source.old) (S.left source.new) self.new }
        ensures len { IfOk result (λ n. length self.new.held ≡ length self.old.held + n) }
        ensures kept { IfOk result (λ n. take (length self.old.held) self.new.held ≡ self.old.held) }
        ensures end { IfOk result (λ n. n ≡ 0 → IsSpent (S.left source.old) (S.left source.new)) }
        ensures fault { IfErr result (λ fault. fault ≡ LinesFault.Fault) }
        ensures stays { OnErr result (self.new ≡ self.old) }
        ensures steady { OnOk result (S.faults source.new ≡ S.faults source.old) }
        ensures counted { OnErr result (Rose (S.faults source.old) (S.faults source.new)) }
        ensures never_falls { S.faults source.old ≤ S.faults source.new }
    {
        let held = self.end - self.start;
        let start = self.start;
        let room = self.buffer.len() - held;
        let limit = room.min((MAX_INPUT - self.place) as usize + 1 - held);
        let read = bytes::refill(source, &mut self.buffer, start, held, limit);
        self.start = 0;
        self.end = held;
        let Ok(n) = read else {
            return Err(LinesFault::Fault);
        };
        self.end = held + n;
        Ok(n)
    }
}
