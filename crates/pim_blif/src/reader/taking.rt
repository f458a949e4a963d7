ghost use Rattle.std.specs.Prelude.{◌≡◌, ◌+◌, ◌<◌, ◌≤◌, None, length, option_map, IfOk, OnOk};
ghost use Rattle.pim_io.specs.Readings.{Gives};
ghost use Rattle.pim_net.specs.declared.limits.TheConstants.{MAX_EQUATIONS};
ghost use Rattle.pim_blif.specs.StatementFaults.{unsupported};
ghost use Rattle.pim_blif.specs.inner.Found.{directive_view};
ghost use Rattle.pim_blif.specs.inner.Readers.{words_used};
ghost use Rattle.pim_blif.specs.inner.Judging.{allowed, directed, judged, without_cover};

use super::Reader;
use crate::directive::Directive;
use crate::fault::BlifFault;
use crate::statement::Statement;
use pim_io::{MAX_NAME, Name, NoMemory};
use std::alloc::Global;

/// The fault of a directive that is not supported, or not where it stands. Constant time.
fn unsupported(alloc: Global, line: u32, word: &[u8]) -> Result<BlifFault, NoMemory>
    requires { 0 < length word.now }
    ensures { IfOk result (λ fault. fault ≡ unsupported line word.now) }
{
    let name = Name::label(alloc, &word[..word.len().min(MAX_NAME)])?;
    Ok(BlifFault::Unsupported(line, name))
}

impl<'a> Reader<'a> {
    /// Takes up a statement, or finds its fault. Linear in its words and their bytes.
    pub(crate) fn take(&mut self, statement: &Statement<'a, '_>) -> Result<(), BlifFault>
        requires { words_used self.old + length statement.now.words ≤ MAX_EQUATIONS }
        ensures exact { Gives BlifFault.NoMemory (λ _. self.new) result (judged self.old statement.now.line statement.now.words) }
        ensures used { OnOk result (words_used self.new ≤ words_used self.old + length statement.now.words) }
    {
        let directive = statement.directive();
        self.allow(statement, directive)?;
        match directive {
            None => self.add_row(statement.line(), statement.words()),
            Some(directive) => {
                self.close_cover()?;
                self.direct(statement, directive)
            }
        }
    }

    /// Whether a statement may stand: `.model` stands before every other statement, and behind `.end` no other may stand.
    fn allow(&self, statement: &Statement, directive: Option<Directive>) -> Result<(), BlifFault>
        ensures { Gives BlifFault.NoMemory (λ _. self.now) result
            (allowed statement.now.line self.now statement.now.words (option_map directive_view directive)) }
    {
        if directive == Some(Directive::Model) {
            if self.started {
                let word = statement.first_word();
                return Err(unsupported(self.alloc, statement.line(), word)?);
            }
        } else if self.ended {
            return Err(BlifFault::Syntax(statement.line()));
        }
        Ok(())
    }

    /// Takes up a directive that may stand, where no cover is open.
    fn direct(
        &mut self,
        statement: &Statement<'a, '_>,
        directive: Directive,
    ) -> Result<(), BlifFault>
        requires few { length statement.now.words ≤ MAX_EQUATIONS }
        requires closed { self.old.cover ≡ None }
        ensures exact { Gives BlifFault.NoMemory (λ _. self.new) result
            (directed statement.now.line self.old statement.now.words (directive_view directive)) }
        ensures used { OnOk result (words_used self.new ≤ words_used self.old + length statement.now.words) }
    {
        let line = statement.line();
        match directive {
            Directive::Model | Directive::PassedOver => Ok(()),
            Directive::Inputs => self.add_inputs(line, statement.arguments()),
            Directive::Outputs => self.add_outputs(statement.arguments()),
            Directive::Names => self.begin_cover(line, statement.arguments()),
            Directive::End => {
                self.ended = true;
                Ok(())
            }
            Directive::Unsupported => {
                Err(unsupported(self.alloc, line, statement.first_word())?)
            }
        }
    }
}
