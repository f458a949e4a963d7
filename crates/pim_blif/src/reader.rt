ghost use Rattle.std.specs.Prelude.{◌≡◌, ◌+◌, ◌<◌, ◌≤◌, [], None, length, IfOk, OnOk, IfSome};
ghost use Rattle.pim_io.specs.Readings.{Gives};
ghost use Rattle.pim_net.specs.declared.limits.TheConstants.{MAX_COLUMNS, MAX_EQUATIONS, MAX_ROWS};
ghost use Rattle.pim_blif.specs.inner.Judging.{known_from, with_input, with_output, each, with_cover, row_of, without_cover};
ghost use Rattle.pim_blif.specs.inner.Readers.{words_used};

use crate::cover::{add_row, empty_cover};
use crate::fault::BlifFault;
use crate::inputs::InputMarks;
use crate::signals::{put_signals, signal};
use crate::table::NameTable;
use crate::word::Word;
use pim_io::NoMemory;
use pim_net::{Bit3, Draft, Equation, Kind, MAX_OUTPUTS, OutRef};
use std::alloc::Global;
use std::marker::Model;

mod closing;
mod taking;

/// What the statements of a file tell, as far as they were read.
#[derive(Drop)]
pub(crate) struct Reader<'a> {
    alloc: Global,
    names: NameTable<'a>,
    marks: InputMarks,
    outputs: u32,
    draft: Draft,
    cover: Option<Equation>,
    signals: Vec<u32>,
    cells: Vec<Bit3>,
    started: bool,
    ended: bool,
}

impl<'a> Model for Reader<'a> {
    ghost use Rattle.pim_blif.specs.inner.Judging.{Known};
    ghost use Rattle.pim_blif.specs.inner.Readers.{IsReader};

    ghost Value = { Known };

    ghost view = { λ r. record {
      names = r.names;
      draft = r.draft;
      cover = r.cover;
      started = r.started;
      ended = r.ended;
    } };

    ghost invariant = { λ r. IsReader r.draft r.marks r.outputs r.cover };
}

impl<'a> Reader<'a> {
    /// A reader that stands before the first statement of a file of this length.
    #[tactic(auto, using(crate::proofs::Marks::marks_none))]
    pub(crate) fn new(alloc: Global, file_len: usize) -> Result<Reader<'a>, NoMemory>
        ensures { IfOk result (λ k. k ≡ known_from []) }
    {
        Ok(Reader {
            alloc,
            names: NameTable::new(alloc, file_len)?,
            marks: InputMarks::new(alloc),
            outputs: 0,
            draft: Draft::new(alloc),
            cover: None,
            signals: Vec::new(alloc),
            cells: Vec::new(alloc),
            started: false,
            ended: false,
        })
    }

    /// Takes up an input of a name, which is not one already.
    #[tactic(auto, using(crate::proofs::Marks::few_inputs, crate::proofs::Marks::marks_same, crate::proofs::Marks::marks_more), unfolding(crate::specs::inner::Judging::with_input))]
    fn add_input(&mut self, line: u32, name: &Word<'a>) -> Result<(), BlifFault>
        ensures exact { Gives BlifFault.NoMemory (λ _. self.new) result (with_input line self.old name.now) }
        ensures used { OnOk result (words_used self.new ≡ words_used self.old) }
    {
        let name = name.bytes();
        let sig = signal(&mut self.names, name)?;
        if self.marks.is_marked(sig) {
            return Err(BlifFault::TwiceInput(line));
        }
        self.marks.make_room(sig)?;
        self.draft.add_input(sig, name)?;
        self.marks.mark(sig);
        Ok(())
    }

    /// Takes up an output of a name; there are at most `MAX_OUTPUTS`.
    #[tactic(auto, unfolding(crate::specs::inner::Judging::with_output))]
    fn add_output(&mut self, name: &Word<'a>) -> Result<(), BlifFault>
        ensures exact { Gives BlifFault.NoMemory (λ _. self.new) result (with_output self.old name.now) }
        ensures used { OnOk result (words_used self.new ≡ words_used self.old) }
    {
        let name = name.bytes();
        let sig = signal(&mut self.names, name)?;
        if self.outputs >= MAX_OUTPUTS {
            return Err(BlifFault::TooLarge(Kind::Outputs));
        }
        self.draft.add_output(OutRef { sig, neg: false }, name)?;
        self.outputs += 1;
        Ok(())
    }

    /// Takes up inputs, from left to right.
    fn add_inputs(&mut self, line: u32, names: &[Word<'a>]) -> Result<(), BlifFault>
        ensures exact { Gives BlifFault.NoMemory (λ _. self.new) result (each (with_input line) self.old names.now) }
        ensures used { OnOk result (words_used self.new ≡ words_used self.old) }
    {
        for name in names {
            self.add_input(line, name)?;
        }
        Ok(())
    }

    /// Takes up outputs, from left to right.
    fn add_outputs(&mut self, names: &[Word<'a>]) -> Result<(), BlifFault>
        ensures exact { Gives BlifFault.NoMemory (λ _. self.new) result (each with_output self.old names.now) }
        ensures used { OnOk result (words_used self.new ≡ words_used self.old) }
    {
        for name in names {
            self.add_output(name)?;
        }
        Ok(())
    }

    /// Begins a cover of these names, of which the last is driven by the others.
    fn begin_cover(&mut self, line: u32, names: &[Word<'a>]) -> Result<(), BlifFault>
        requires { length names.now ≤ MAX_COLUMNS }
        ensures exact { Gives BlifFault.NoMemory (λ _. self.new) result (with_cover line self.old names.now) }
        ensures used { self.old.cover ≡ None → OnOk result (words_used self.new ≤ words_used self.old + length names.now + 1) }
    {
        put_signals(&mut self.names, names, &mut self.signals)?;
        let Some(cover) = empty_cover(self.alloc, &self.signals)? else {
            return Err(BlifFault::Syntax(line));
        };
        self.cover = Some(cover);
        Ok(())
    }

    /// Takes up a row of the open cover.
    fn add_row(&mut self, line: u32, words: &[Word]) -> Result<(), BlifFault>
        requires { IfSome self.old.cover (λ e. length e.cover.rows < MAX_ROWS) }
        ensures exact { Gives BlifFault.NoMemory (λ _. self.new) result (row_of line self.old self.old.cover words.now) }
        ensures used { OnOk result (words_used self.new ≤ words_used self.old + 1) }
    {
        let Some(equation) = self.cover.take() else {
            return Err(BlifFault::Syntax(line));
        };
        let equation = add_row(line, words, equation, &mut self.cells)?;
        self.cover = Some(equation);
        Ok(())
    }

    /// Closes the cover that is open, as every directive does.
    fn close_cover(&mut self) -> Result<(), NoMemory>
        requires { length self.old.draft.equations + 1 < MAX_EQUATIONS }
        ensures exact { OnOk result (self.new ≡ without_cover self.old) }
        ensures used { OnOk result (words_used self.new ≤ words_used self.old) }
    {
        self.started = true;
        if let Some(Equation { sig, cover }) = self.cover.take() {
            self.draft.add_cover(sig, cover)?;
        }
        Ok(())
    }
}
