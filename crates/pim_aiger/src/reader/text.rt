ghost use Rattle.std.specs.Prelude.{◌<◌, IfOk};
ghost use Rattle.pim_io.specs.Readings.{Gives};
ghost use Rattle.pim_aiger.specs.HeaderLine.{header_at};
ghost use Rattle.pim_aiger.specs.inner.Kept.{IsWithin};
ghost use Rattle.pim_aiger.specs.Literals.{input_at, output_at, gate_at};
ghost use Rattle.pim_net.specs.declared.limits.TheConstants.{MAX_SIGNALS};
ghost use Rattle.pim_aiger.specs.inner.Views.{form_view, header_view};

use super::Reader;
use crate::fault::AigerFault;
use crate::header::{Form, Header};
use crate::literal::{and_gate, is_literal, is_plain, reference};
use crate::words::{header_numbers, one_number, three_numbers};
use pim_net::{Equation, OutRef};
use std::alloc::Global;

impl<'a> Reader<'a> {
    /// The rest of the header line behind its tag.
    #[tactic(auto, unfolding(crate::specs::HeaderLine::header_at))]
    pub(crate) fn header(&mut self, form: Form) -> Result<Header, AigerFault>
        ensures exact { Gives AigerFault.NoMemory (λ header. (header_view header, self.new)) result
            (header_at (form_view form) self.old) }
        ensures within { IfOk result (λ header. IsWithin (header_view header)) }
    {
        let text = self.line()?;
        let Some(header) = header_numbers(text) else {
            return Err(AigerFault::Header);
        };
        header.judged(form)
    }

    /// The variable of an input line.
    #[tactic(auto, unfolding(crate::specs::Literals::input_at))]
    pub(crate) fn input(&mut self, greatest: u32) -> Result<u32, AigerFault>
        requires { greatest < MAX_SIGNALS }
        ensures exact { Gives AigerFault.NoMemory (λ variable. (variable, self.new)) result (input_at greatest self.old) }
        ensures below { IfOk result (λ variable. variable < MAX_SIGNALS) }
    {
        let place = self.place;
        let text = self.line()?;
        let Some(literal) = one_number(text) else {
            return Err(AigerFault::Number(place));
        };
        if !is_plain(greatest, literal) {
            return Err(AigerFault::Literal(place));
        }
        Ok(literal / 2)
    }

    /// The signal of an output line.
    #[tactic(auto, unfolding(crate::specs::Literals::output_at))]
    pub(crate) fn output(&mut self, greatest: u32) -> Result<OutRef, AigerFault>
        requires { greatest < MAX_SIGNALS }
        ensures exact { Gives AigerFault.NoMemory (λ output. (output, self.new)) result (output_at greatest self.old) }
        ensures below { IfOk result (λ output. output.sig < MAX_SIGNALS) }
    {
        let place = self.place;
        let text = self.line()?;
        let Some(literal) = one_number(text) else {
            return Err(AigerFault::Number(place));
        };
        if !is_literal(greatest, literal) {
            return Err(AigerFault::Literal(place));
        }
        Ok(reference(literal))
    }

    /// The gate of a gate line.
    #[tactic(auto, unfolding(crate::specs::Literals::gate_at))]
    pub(crate) fn gate(&mut self, alloc: Global, greatest: u32) -> Result<Equation, AigerFault>
        requires { greatest < MAX_SIGNALS }
        ensures exact { Gives AigerFault.NoMemory (λ gate. (gate, self.new)) result (gate_at greatest self.old) }
        ensures below { IfOk result (λ gate. gate.sig < MAX_SIGNALS) }
    {
        let place = self.place;
        let text = self.line()?;
        let Some((gate, left, right)) = three_numbers(text) else {
            return Err(AigerFault::Number(place));
        };
        if !(is_plain(greatest, gate)
            && is_literal(greatest, left)
            && is_literal(greatest, right))
        {
            return Err(AigerFault::Literal(place));
        }
        Ok(and_gate(alloc, gate / 2, left, right)?)
    }
}
