ghost use Rattle.std.specs.Prelude.{IfOk};
ghost use Rattle.pim_aiger.specs.HeaderLine.{judged};
ghost use Rattle.pim_aiger.specs.inner.Kept.{IsWithin};
ghost use Rattle.pim_io.specs.Readings.{Gives};
ghost use Rattle.pim_aiger.specs.inner.Views.{form_view, header_view};

use crate::fault::AigerFault;
use pim_net::{Kind, MAX_OUTPUTS, MAX_SIGNALS};

/// The form of a file.
#[derive(Clone, Copy, Debug, PartialEq, Eq)]
pub(crate) enum Form {
    /// Each line is text.
    Text,
    /// The inputs are left out, and the gates are seven-bit codes.
    Binary,
}

/// The numbers of a header: the greatest variable, and how many inputs, latches, outputs and gates follow.
#[derive(Clone, Copy, Debug)]
pub(crate) struct Header {
    pub(crate) greatest: u32,
    pub(crate) inputs: u32,
    pub(crate) latches: u32,
    pub(crate) outputs: u32,
    pub(crate) gates: u32,
}

impl Header {
    /// The same header, where its numbers agree and are within the limits: `MAX_SIGNALS` signals, signal 0 among them, and
    /// `MAX_OUTPUTS` outputs.
    pub(crate) fn judged(self, form: Form) -> Result<Header, AigerFault>
        ensures exact { Gives AigerFault.NoMemory header_view result (judged (form_view form) (header_view self)) }
        ensures within { IfOk result (λ header. IsWithin (header_view header)) }
    {
        if self.latches != 0 {
            return Err(AigerFault::Latches);
        }
        let used = u64::from(self.inputs) + u64::from(self.gates);
        let agrees = match form {
            Form::Text => used <= u64::from(self.greatest),
            Form::Binary => used == u64::from(self.greatest),
        };
        if !agrees {
            return Err(AigerFault::Header);
        }
        if self.greatest >= MAX_SIGNALS {
            return Err(AigerFault::TooLarge(Kind::Signals));
        }
        if self.outputs > MAX_OUTPUTS {
            return Err(AigerFault::TooLarge(Kind::Outputs));
        }
        Ok(self)
    }
}
