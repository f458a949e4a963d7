ghost use Rattle.std.specs.Prelude.{◌≡◌, ◌<◌, ◌≤◌, length, take, IfOk, OnOk, OnErr};
ghost use Rattle.pim_io.specs.Outside.{raised, Gave, IsSpent, Stays};

use crate::{Source, SourceFault};
use std::io::Read;
use std::marker::Model;

/// A source over a reader of the standard library. Each error of the reader is a fault that it counts. As a source it tells
/// no bytes, since a reader doesn't say that it leaves the rest of the buffer; what the reader tells is kept beside that.
#[derive(Drop)]
pub struct ReadSource<R: Read> {
    inner: R,
    faults: u64,
}

impl<R: Read> Model for ReadSource<R> {
    ghost use Rattle.pim_io.specs.Adapters.{ReadSourceView};

    ghost Value = { ReadSourceView };

    ghost view = { λ s. record { remaining = R.remaining s.inner; faults = s.faults } };
}

impl<R: Read> ReadSource<R> {
    /// A source of what the reader gives.
    pub fn new(inner: R) -> ReadSource<R>
        ensures { result ≡ record { remaining = R.remaining inner; faults = 0 } }
    {
        ReadSource { inner, faults: 0 }
    }
}

impl<R: Read> Source for ReadSource<R> {
    ghost use Rattle.std.specs.Prelude.{None};

    ghost left = { λ _. None };

    ghost faults = { λ s. s.faults };

    /// Where the reader tells its bytes, those that were given are the first that were left, none were given only at the end,
    /// and a fault takes none.
    fn read(&mut self, buf: &mut [u8]) -> Result<usize, SourceFault>
        ensures within { IfOk result (λ n. n ≤ length buf.old) }
        ensures gave { IfOk result (λ n. Gave self.old.remaining self.new.remaining (take n buf.new)) }
        ensures end { 0 < length buf.old → IfOk result (λ n. n ≡ 0 → IsSpent self.old.remaining self.new.remaining) }
        ensures stays { OnErr result (Stays self.old.remaining self.new.remaining) }
        ensures steady { OnOk result (self.new.faults ≡ self.old.faults) }
        ensures counted { OnErr result (self.new.faults ≡ raised self.old.faults) }
        ensures never_falls { self.old.faults ≤ self.new.faults }
    {
        if let Ok(n) = self.inner.read(buf) {
            return Ok(n);
        }
        self.faults = self.faults.saturating_add(1);
        Err(SourceFault)
    }
}
