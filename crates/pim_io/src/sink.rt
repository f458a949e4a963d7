ghost use Rattle.std.specs.Prelude.{◌≡◌, ℕ, ◌<◌, ◌≤◌, List, length, Option, IfOk, OnOk, OnErr};
ghost use Rattle.pim_io.specs.Outside.{Rose, TookSome};

use thiserror::Error;

/// A write that failed. The sink has counted it.
#[derive(Clone, Copy, Debug, PartialEq, Eq, Error)]
#[error("the sink could not be written")]
pub struct SinkFault;

/// Where bytes go. A sink may tell the bytes that it took; it counts its faults, and the count never falls.
pub trait Sink {
    /// The bytes that were taken, where the sink tells them.
    ghost taken: { Self → Option (List ℕ) };

    /// How many writes failed, up to the greatest number that the count can hold.
    ghost faults: { Self → ℕ };

    /// Takes some bytes from the front of `piece`, at least one, and returns how many. A fault raises the count, and nothing
    /// else does.
    /// What it does on an empty piece is left open, but for the count and the bytes that a fault leaves.
    fn write(&mut self, piece: &[u8]) -> Result<usize, SinkFault>
        ensures within { 0 < length piece.now → IfOk result (λ n. (0 < n) × (n ≤ length piece.now)) }
        ensures takes { 0 < length piece.now → IfOk result (TookSome (taken self.old) (taken self.new) piece.now) }
        ensures stays { OnErr result (taken self.new ≡ taken self.old) }
        ensures steady { OnOk result (faults self.new ≡ faults self.old) }
        ensures counted { OnErr result (Rose (faults self.old) (faults self.new)) }
        ensures never_falls { faults self.old ≤ faults self.new };
}
