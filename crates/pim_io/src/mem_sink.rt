ghost use Rattle.std.specs.Prelude.{◌≡◌, ◌<◌, ◌≤◌, ◌↔◌, ◌⊎◌, ◌++◌, [], length, take, IfOk, OnOk, OnErr, IsErr, IsTrue, Contains, MatchResult};
ghost use Rattle.pim_io.specs.Outside.{Rose};
ghost use Rattle.pim_io.specs.Memory.{taken_len, after_write, after_failed_write};

use crate::{NoMemory, Sink, SinkFault};
use std::alloc::Global;
use std::marker::Model;

/// A sink in memory of a given room that takes bytes in chunks, and whose calls fail as it was told: exactly the calls whose
/// numbers, from 0, are among the failing ones, and those that find the room spent. It is made for tests of what writes.
#[derive(Debug, Drop)]
pub struct MemSink {
    bytes: Vec<u8>,
    room: usize,
    chunk: usize,
    failing: Vec<u64>,
    calls: u64,
    faults: u64,
}

impl Model for MemSink {
    ghost use Rattle.std.specs.Prelude.{◌≤◌, ◌<◌, vec_len};
    ghost use Rattle.std.specs.Vec.{vec_capacity};
    ghost use Rattle.pim_io.specs.Memory.{MemSinkView};

    ghost Value = { MemSinkView };

    ghost view = { λ s. record {
      taken = s.bytes.items;
      room = s.room;
      chunk = s.chunk;
      failing = s.failing.items;
      calls = s.calls;
      faults = s.faults;
    } };

    ghost invariant = { λ s. (vec_len s.bytes ≤ s.room) × (s.room ≤ vec_capacity s.bytes) × (0 < s.chunk) };
}

impl MemSink {
    /// A sink that takes at most `room` bytes in all and at most `chunk` in a call. It takes its memory here.
    pub fn new(
        alloc: Global,
        room: usize,
        chunk: usize,
        failing: &[u64],
    ) -> Result<MemSink, NoMemory>
        requires { 0 < chunk }
        ensures { IfOk result (λ sink. sink ≡ record {
          taken = [];
          room = room;
          chunk = chunk;
          failing = failing.now;
          calls = 0;
          faults = 0;
        }) }
    {
        Ok(MemSink {
            bytes: Vec::with_capacity(alloc, room)?,
            room,
            chunk,
            failing: Vec::from_slice(alloc, failing)?,
            calls: 0,
            faults: 0,
        })
    }

    /// The bytes that were taken.
    pub fn bytes(&self) -> &[u8]
        ensures value { result.now ≡ self.now.taken }
        ensures within { length self.now.taken ≤ self.now.room }
    {
        self.bytes.as_slice()
    }

    /// Whether the next call fails on a piece that is not empty.
    fn is_failing(&self) -> bool
        ensures { IsTrue result
            ↔ (Contains self.now.failing self.now.calls ⊎ (length self.now.taken ≡ self.now.room)) }
    {
        if self.bytes.len() == self.room {
            return true;
        }
        self.failing.contains(&self.calls)
    }
}

impl Sink for MemSink {
    ghost use Rattle.std.specs.Prelude.{Some};

    ghost taken = { λ s. Some s.taken };

    ghost faults = { λ s. s.faults };

    /// An empty piece is taken, and is a call like others. Linear in the bytes that it takes and in the number of failing
    /// calls.
    fn write(&mut self, piece: &[u8]) -> Result<usize, SinkFault>
        ensures within { 0 < length piece.now → IfOk result (λ n. (0 < n) × (n ≤ length piece.now)) }
        ensures takes { 0 < length piece.now → IfOk result (λ n. self.new.taken ≡ self.old.taken ++ take n piece.now) }
        ensures stays { OnErr result (self.new.taken ≡ self.old.taken) }
        ensures steady { OnOk result (self.new.faults ≡ self.old.faults) }
        ensures counted { OnErr result (Rose self.old.faults self.new.faults) }
        ensures never_falls { self.old.faults ≤ self.new.faults }
        ensures fails { 0 < length piece.now →
            (IsErr result ↔ (Contains self.old.failing self.old.calls ⊎ (length self.old.taken ≡ self.old.room))) }
        ensures len { IfOk result (λ n. n ≡ taken_len self.old piece.now) }
        ensures after { MatchResult result
            (λ n. self.new ≡ after_write self.old piece.now n)
            (λ _. self.new ≡ after_failed_write self.old) }
    {
        let is_failing = self.is_failing();
        self.calls = self.calls.saturating_add(1);
        if is_failing && !piece.is_empty() {
            self.faults = self.faults.saturating_add(1);
            return Err(SinkFault);
        }
        let room = self.chunk.min(self.room - self.bytes.len());
        let n = piece.len().min(room);
        let Ok(()) = self.bytes.extend_from_slice(&piece[..n]) else {
            unreachable!();
        };
        Ok(n)
    }
}
