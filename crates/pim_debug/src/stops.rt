ghost use Rattle.std.specs.Prelude.{◌≡◌, ◌≢◌, ℕ, ◌<◌, [], Some, None, true, false, is_some, length, slice_set, IfOk, OnErr};
ghost use Rattle.pim_debug.specs.States.{has_stop, stop_of, stops_from};

use crate::stop::Stop;
use pim_io::NoMemory;
use slab::Slab;
use std::alloc::Global;
use std::marker::Model;

/// The breakpoints of a session: the position of each by its number, and how many stand at each position.
#[derive(Debug, Drop)]
pub(crate) struct Stops {
    slots: Slab<u32>,

    // How many breakpoints stand at each position.
    counts: Vec<u32>,
}

impl Model for Stops {
    ghost use Rattle.std.specs.Prelude.{length};
    ghost use Rattle.pim_debug.specs.inner.Counts.{AreCounts, StopsView};

    ghost Value = { StopsView };

    ghost view = { λ s. record { stops = s.slots.slots; positions = length s.counts.items } };

    ghost invariant = { λ s. AreCounts s.counts.items s.slots.slots };
}

impl Stops {
    /// No breakpoints, where there are so many positions. Linear in them.
    pub(crate) fn new(alloc: Global, positions: usize) -> Result<Stops, NoMemory>
        ensures { IfOk result (λ s. s ≡ record { stops = []; positions = positions }) }
    {
        let mut counts = Vec::new(alloc);
        counts.resize(positions, 0)?;
        Ok(Stops {
            slots: Slab::new(alloc),
            counts,
        })
    }

    /// Whether one stands at this position.
    pub(crate) fn is_at(&self, k: u32) -> bool
        requires { k < self.now.positions }
        ensures { result ≡ has_stop k self.now.stops }
    {
        self.counts[k as usize] > 0
    }

    /// Sets one at this position, and gives its number, which was not set. Where there is no memory nothing changes.
    pub(crate) fn set(&mut self, k: u32) -> Result<usize, NoMemory>
        requires { k < self.old.positions }
        ensures free { IfOk result (λ n. stop_of self.old.stops n ≡ None) }
        ensures set { IfOk result (λ n. stop_of self.new.stops n ≡ Some k) }
        ensures others { IfOk result (λ n. (m : ℕ) → m ≢ n → stop_of self.new.stops m ≡ stop_of self.old.stops m) }
        ensures positions { self.new.positions ≡ self.old.positions }
        ensures err { OnErr result (self.new ≡ self.old) }
    {
        let count = self.counts[k as usize].checked_add(1).ok_or(NoMemory)?;
        let number = self.slots.insert(k)?;
        self.counts[k as usize] = count;
        Ok(number)
    }

    /// Takes the one of this number away, and says whether it was set.
    pub(crate) fn take_away(&mut self, n: u32) -> bool
        ensures was_set { result ≡ is_some (stop_of self.old.stops n) }
        ensures taken { result ≡ true → self.new ≡ record self.old { stops = slice_set self.old.stops n None } }
        ensures stays { result ≡ false → self.new ≡ self.old }
    {
        let Some(k) = self.slots.try_remove(n as usize) else {
            return false;
        };
        self.counts[k as usize] -= 1;
        true
    }

    /// The breakpoints with their numbers, by rising number. Linear in the greatest number.
    pub(crate) fn list(&self, alloc: Global) -> Result<Vec<Stop>, NoMemory>
        ensures { IfOk result (λ stops. stops.items ≡ stops_from 0 self.now.stops) }
    {
        let mut list = Vec::new(alloc);
        for (number, at) in self.slots.iter() {
            list.push(Stop {
                number: number as u64,
                at: *at,
            })?;
        }
        Ok(list)
    }
}
