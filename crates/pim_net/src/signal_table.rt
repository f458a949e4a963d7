ghost use Rattle.std.specs.Prelude.{◌≡◌, OnOk, IfOk};

use indexmap::IndexMap;
use pim_io::NoMemory;
use std::alloc::Global;

/// A value for each signal number: `rest` until one is put there. The values of the first signals stand in a list, and those of
/// the signals behind them in a hashed map, so what a table takes depends on what is put into it, and not on how great a number
/// is.
#[derive(Drop)]
pub struct SignalTable<T> {
    first: Vec<T>,
    others: IndexMap<u32, T>,
    rest: T,
}

impl<T: Copy> SignalTable<T> {
    ghost use Rattle.pim_net.specs.Tables.{put, values};

    /// A table that has `rest` at every signal, with room in its list for this many signals. Linear in their number.
    pub fn new(alloc: Global, count: usize, rest: T) -> Result<SignalTable<T>, NoMemory>
        ensures { IfOk result (λ table. values table ≡ (λ s. rest)) }
    {
        let mut first = Vec::with_capacity(alloc, count)?;
        for _ in 0..count {
            first.push(rest)?;
        }
        Ok(SignalTable {
            first,
            others: IndexMap::new(alloc),
            rest,
        })
    }

    /// The value at a signal. Constant time for the signals of the list, and expected constant time for the others.
    pub fn at(&self, sig: u32) -> T
        ensures { result ≡ values self.now sig }
    {
        let place = sig as usize;
        if place < self.first.len() {
            return self.first[place];
        }
        match self.others.get(&sig) {
            Some(value) => *value,
            None => self.rest,
        }
    }

    /// Puts a value there. Constant time for the signals of the list, and expected constant time for the others.
    pub fn put(&mut self, sig: u32, value: T) -> Result<(), NoMemory>
        ensures { OnOk result (values self.new ≡ put (values self.old) sig value) }
    {
        let place = sig as usize;
        if place < self.first.len() {
            self.first[place] = value;
        } else {
            self.others.insert(sig, value)?;
        }
        Ok(())
    }
}
