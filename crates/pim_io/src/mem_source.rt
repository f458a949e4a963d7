ghost use Rattle.std.specs.Prelude.{◌≡◌, ◌<◌, ◌≤◌, ◌↔◌, length, min, IfOk, OnOk, OnErr, IsErr, Contains, MatchResult};
ghost use Rattle.pim_io.specs.Outside.{Rose, Read};
ghost use Rattle.pim_io.specs.Memory.{after_read, after_failed_read};

use crate::{NoMemory, Source, SourceFault};
use std::alloc::Global;
use std::marker::Model;

/// A source of bytes in memory that gives them in chunks, and whose calls fail as it was told: exactly the calls whose
/// numbers, from 0, are among the failing ones. It is made for tests of what reads.
#[derive(Debug, Drop)]
pub struct MemSource {
    bytes: Vec<u8>,
    at: usize,
    chunk: usize,
    failing: Vec<u64>,
    calls: u64,
    faults: u64,
}

impl Model for MemSource {
    ghost use Rattle.std.specs.Prelude.{◌≤◌, ◌<◌, drop, vec_len};
    ghost use Rattle.pim_io.specs.Memory.{MemSourceView};

    ghost Value = { MemSourceView };

    ghost view = { λ s. record {
      left = drop s.at s.bytes.items;
      chunk = s.chunk;
      failing = s.failing.items;
      calls = s.calls;
      faults = s.faults;
    } };

    ghost invariant = { λ s. (s.at ≤ vec_len s.bytes) × (0 < s.chunk) };
}

impl MemSource {
    /// A source of these bytes that gives at most `chunk` bytes in a call. Takes memory for both lists.
    pub fn new(
        alloc: Global,
        bytes: &[u8],
        chunk: usize,
        failing: &[u64],
    ) -> Result<MemSource, NoMemory>
        requires { 0 < chunk }
        ensures { IfOk result (λ source. source ≡ record {
          left = bytes.now;
          chunk = chunk;
          failing = failing.now;
          calls = 0;
          faults = 0;
        }) }
    {
        Ok(MemSource {
            bytes: Vec::from_slice(alloc, bytes)?,
            at: 0,
            chunk,
            failing: Vec::from_slice(alloc, failing)?,
            calls: 0,
            faults: 0,
        })
    }
}

impl Source for MemSource {
    ghost use Rattle.std.specs.Prelude.{Some};

    ghost left = { λ s. Some s.left };

    ghost faults = { λ s. s.faults };

    /// Linear in the bytes that it gives and in the number of failing calls.
    fn read(&mut self, buf: &mut [u8]) -> Result<usize, SourceFault>
        ensures within { 0 < length buf.old → IfOk result (λ n. n ≤ length buf.old) }
        ensures gives { 0 < length buf.old → IfOk result (Read self.old.left self.new.left buf.old buf.new) }
        ensures stays { OnErr result (self.new.left ≡ self.old.left) }
        ensures steady { OnOk result (self.new.faults ≡ self.old.faults) }
        ensures counted { OnErr result (Rose self.old.faults self.new.faults) }
        ensures never_falls { self.old.faults ≤ self.new.faults }
        ensures fails { IsErr result ↔ Contains self.old.failing self.old.calls }
        ensures len { IfOk result (λ n. n ≡ min (length buf.old) (min self.old.chunk (length self.old.left))) }
        ensures after { MatchResult result
            (λ n. self.new ≡ after_read self.old n)
            (λ _. self.new ≡ after_failed_read self.old) }
    {
        let call = self.calls;
        self.calls = call.saturating_add(1);
        if self.failing.contains(&call) {
            self.faults = self.faults.saturating_add(1);
            return Err(SourceFault);
        }
        let (_, left) = self.bytes.as_slice().split_at(self.at);
        let n = buf.len().min(self.chunk.min(left.len()));
        buf[..n].copy_from_slice(&left[..n]);
        self.at += n;
        Ok(n)
    }
}
