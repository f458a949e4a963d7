ghost use Rattle.std.specs.Prelude.{◌≡◌, ◌+◌, ◌<◌, ◌^◌, ◌∷◌, [], length, IsPermutation, OnOk};
ghost use Rattle.pim_graph.specs.inner.Pools.{IsTaken};

use pim_io::NoMemory;
use std::alloc::Global;
use std::cmp::Reverse;
use std::collections::BinaryHeap;
use std::marker::Model;

/// The cells that are free again, and the first one that was never given out.
#[derive(Drop)]
pub(crate) struct Spares {
    free: BinaryHeap<Reverse<u32>>,
    next: u32,
}

impl Model for Spares {
    ghost use Rattle.std.specs.Prelude.{map};
    ghost use Rattle.std.specs.BinaryHeap.{heap_items};
    ghost use Rattle.pim_graph.specs.inner.Pools.{SparesView};

    ghost Value = { SparesView };

    ghost view = { λ s. record { free = map (λ r. r.0) (heap_items s.free); next = s.next } };
}

impl Spares {
    /// None is free, and the first one to give out is this.
    pub(crate) fn new(alloc: Global, first: u32) -> Spares
        ensures { result ≡ record { free = []; next = first } }
    {
        Spares {
            free: BinaryHeap::new(alloc),
            next: first,
        }
    }

    /// How many cells there are up to the last one given out.
    pub(crate) fn width(&self) -> u32
        ensures { result ≡ self.now.next }
    {
        self.next
    }

    /// Takes the least free cell, and where none is free the next one. It takes log n for n free cells.
    pub(crate) fn take(&mut self) -> u32
        requires { length self.old.free ≡ 0 → self.old.next + 1 < 2 ^ 32 }
        ensures { IsTaken self.old self.new result }
    {
        match self.free.pop() {
            Some(Reverse(cell)) => cell,
            None => {
                let cell = self.next;
                self.next += 1;
                cell
            }
        }
    }

    /// Makes a cell free again. It takes log n for n free cells.
    pub(crate) fn give_back(&mut self, cell: u32) -> Result<(), NoMemory>
        ensures free { OnOk result (IsPermutation (cell ∷ self.old.free) self.new.free) }
        ensures next { self.new.next ≡ self.old.next }
    {
        self.free.push(Reverse(cell))?;
        Ok(())
    }
}
