ghost use Rattle.std.specs.Prelude.{◌≡◌, IfOk, if◌then◌else◌, None, Some};
ghost use Rattle.pim_io.specs.Readings.{Gives};
ghost use Rattle.pim_isa.specs.declared.draft.TheConstants.{MAX_CELLS};
ghost use Rattle.std.specs.Prelude.{◌≤◌};
ghost use Rattle.pim_asm.specs.Assembly.{begun, done, missed, after};
ghost use Rattle.pim_asm.specs.Words.{words};
ghost use Rattle.pim_asm.specs.inner.StatementViews.{statement_view};

use crate::fault::AsmFault;
use crate::names::{AnyCells, KnownCells, Names};
use crate::statement::{Statement, read_statement};
use pim_io::NoMemory;
use pim_isa::{ProgramDraft, Target};
use std::alloc::Global;
use std::marker::Model;

/// What was read behind the number of cells: the draft, and the names that are defined.
#[derive(Drop)]
pub(crate) struct Body<'a> {
    alloc: Global,
    draft: ProgramDraft,
    names: Names<'a>,
}

impl<'a> Model for Body<'a> {
    ghost use Rattle.pim_asm.specs.Assembly.{Body as BodyView};

    ghost Value = { BodyView };

    ghost view = { λ b. record { draft = b.draft; names = b.names } };
}

impl<'a> Body<'a> {
    /// A draft without ports and instructions, and no names.
    pub(crate) fn new(alloc: Global, target: Target, cells: u32) -> Body<'a>
        requires { cells ≤ MAX_CELLS }
        ensures { result ≡ begun target cells }
    {
        Body {
            alloc,
            draft: ProgramDraft::new(alloc, target, cells),
            names: Names::new(alloc),
        }
    }

    /// Reads the statement in the line `number`, whose first word is followed by a text.
    pub(crate) fn statement(
        &mut self,
        number: u32,
        word: &[u8],
        text: &'a [u8],
    ) -> Result<(), AsmFault>
        ensures { Gives AsmFault.NoMemory (λ _. self.new) result (after self.old number word.now (words text.now)) }
    {
        let known = KnownCells { names: &self.names };
        let Some(statement) = read_statement(self.alloc, &known, word, text)? else {
            return Err(missed(self.alloc, number, word, text)?);
        };
        if !self.take(statement)? {
            return Err(AsmFault::Name(number));
        }
        Ok(())
    }

    /// Does what a statement says; the answer is whether it may.
    fn take(&mut self, statement: Statement<'a>) -> Result<bool, NoMemory>
        ensures { IfOk result (λ may. done self.old (statement_view statement.entry) ≡ (if may then Some self.new else None)) }
    {
        match statement {
            Statement::Let(name, cell) => return self.names.define(name, cell),
            Statement::Input(port) => self.draft.add_input(port.cell, port.label.bytes())?,
            Statement::Output(port) => self.draft.add_output(port.cell, port.label.bytes())?,
            Statement::Does(instr) => self.draft.add(instr)?,
        }
        Ok(true)
    }

    /// The draft.
    pub(crate) fn into_draft(self) -> ProgramDraft
        ensures { result ≡ self.entry.draft }
    {
        self.draft
    }
}

/// Why words are no statement with the names so far.
fn missed(alloc: Global, number: u32, word: &[u8], text: &[u8]) -> Result<AsmFault, NoMemory>
    ensures { IfOk result (λ fault. fault ≡ missed number word.now (words text.now)) }
{
    match read_statement(alloc, &AnyCells, word, text)? {
        Some(_) => Ok(AsmFault::Name(number)),
        None => Ok(AsmFault::Line(number)),
    }
}
