ghost use Rattle.std.specs.Prelude.{◌≡◌, ℕ, ◌<◌, ◌≤◌, List, length, Option, IfOk, OnOk, OnErr};
ghost use Rattle.pim_io.specs.Outside.{Rose, GaveSome};

use thiserror::Error;

/// A read that failed. The source has counted it.
#[derive(Clone, Copy, Debug, PartialEq, Eq, Error)]
#[error("the source could not be read")]
pub struct SourceFault;

/// Where bytes come from. A source may tell the bytes that are left; it counts its faults, and the count never falls.
pub trait Source {
    /// The bytes that are left, where the source tells them.
    ghost left: { Self → Option (List ℕ) };

    /// How many reads failed, up to the greatest number that the count can hold.
    ghost faults: { Self → ℕ };

    /// Reads some of the bytes that are left into the front of `buf`, and returns how many: 0 at the end of the input. A fault
    /// raises the count, and nothing else does.
    /// What it does on an empty buffer is left open, but for the count and the bytes that a fault leaves.
    fn read(&mut self, buf: &mut [u8]) -> Result<usize, SourceFault>
        ensures within { 0 < length buf.old → IfOk result (λ n. n ≤ length buf.old) }
        ensures gives { 0 < length buf.old → IfOk result (GaveSome (left self.old) (left self.new) buf.old buf.new) }
        ensures stays { OnErr result (left self.new ≡ left self.old) }
        ensures steady { OnOk result (faults self.new ≡ faults self.old) }
        ensures counted { OnErr result (Rose (faults self.old) (faults self.new)) }
        ensures never_falls { faults self.old ≤ faults self.new };
}
