ghost use Rattle.std.specs.Prelude.{◌≡◌, ◌<◌, ◌≤◌, length, IfOk, OnOk, OnErr};
ghost use Rattle.pim_io.specs.Outside.{raised, TookSome, Stays};

use crate::{Sink, SinkFault};
use std::io::Write;
use std::marker::Model;

/// A sink over a writer of the standard library. Each error of the writer is a fault that it counts, and so is a call that
/// takes none of a piece that is not empty. As a sink it tells no bytes; what the writer tells is kept beside that.
#[derive(Drop)]
pub struct WriteSink<W: Write> {
    inner: W,
    faults: u64,
}

impl<W: Write> Model for WriteSink<W> {
    ghost use Rattle.pim_io.specs.Adapters.{WriteSinkView};

    ghost Value = { WriteSinkView };

    ghost view = { λ s. record { contents = W.contents s.inner; faults = s.faults } };
}

impl<W: Write> WriteSink<W> {
    /// A sink that gives to the writer what it takes.
    pub fn new(inner: W) -> WriteSink<W>
        ensures { result ≡ record { contents = W.contents inner; faults = 0 } }
    {
        WriteSink { inner, faults: 0 }
    }
}

impl<W: Write> Sink for WriteSink<W> {
    ghost use Rattle.std.specs.Prelude.{None};

    ghost taken = { λ _. None };

    ghost faults = { λ s. s.faults };

    /// Where the writer tells its bytes, those that were taken stand behind them, and a fault takes none.
    fn write(&mut self, piece: &[u8]) -> Result<usize, SinkFault>
        ensures within { 0 < length piece.now → IfOk result (λ n. (0 < n) × (n ≤ length piece.now)) }
        ensures took { IfOk result (TookSome self.old.contents self.new.contents piece.now) }
        ensures stays { OnErr result (Stays self.old.contents self.new.contents) }
        ensures steady { OnOk result (self.new.faults ≡ self.old.faults) }
        ensures counted { OnErr result (self.new.faults ≡ raised self.old.faults) }
        ensures never_falls { self.old.faults ≤ self.new.faults }
    {
        if let Ok(n) = self.inner.write(piece) {
            if n > 0 || piece.is_empty() {
                return Ok(n);
            }
        }
        self.faults = self.faults.saturating_add(1);
        Err(SinkFault)
    }
}
