ghost use Rattle.std.specs.Prelude.{◌+◌, ◌<◌, IfOk};
ghost use Rattle.pim_io.specs.Readings.{Gives};
ghost use Rattle.pim_aiger.specs.Deltas.{delta_at, binary_gate_at};
ghost use Rattle.pim_net.specs.declared.limits.TheConstants.{MAX_SIGNALS};

use super::Reader;
use crate::fault::AigerFault;
use crate::literal::and_gate;
use pim_io::{Code, get_code};
use pim_net::Equation;
use std::alloc::Global;

impl<'a> Reader<'a> {
    /// How far the next literal of a binary gate is below the one before it.
    #[tactic(auto, unfolding(crate::specs::Deltas::delta_at))]
    fn delta(&mut self) -> Result<u32, AigerFault>
        ensures { Gives AigerFault.NoMemory (λ delta. (delta, self.new)) result (delta_at self.old) }
    {
        match get_code(self.rest, 0) {
            Code::Got { value, next } => {
                self.skip(next);
                Ok(value)
            }
            Code::Long => Err(AigerFault::Delta(self.place)),
            Code::Short => Err(self.truncated()),
        }
    }

    /// The gate of a binary file that stands for this variable.
    #[tactic(auto, unfolding(crate::specs::Deltas::binary_gate_at))]
    pub(crate) fn binary_gate(
        &mut self,
        alloc: Global,
        inputs: u32,
        k: u32,
    ) -> Result<Equation, AigerFault>
        requires { inputs + k + 1 < MAX_SIGNALS }
        ensures exact { Gives AigerFault.NoMemory (λ gate. (gate, self.new)) result (binary_gate_at inputs k self.old) }
        ensures below { IfOk result (λ gate. gate.sig < MAX_SIGNALS) }
    {
        let variable = inputs + k + 1;
        let place = self.place;
        let delta = self.delta()?;
        if delta == 0 || delta > 2 * variable {
            return Err(AigerFault::Delta(place));
        }
        let left = 2 * variable - delta;
        let place = self.place;
        let delta = self.delta()?;
        if delta > left {
            return Err(AigerFault::Delta(place));
        }
        Ok(and_gate(alloc, variable, left, left - delta)?)
    }
}
