ghost use Rattle.std.specs.Prelude.{◌≡◌, ◌<◌, ◌≤◌, ℕ, [], true, length, slice_set, OnOk, count_by};
ghost use Rattle.pim_net.specs.declared.limits.TheConstants.{MAX_SIGNALS};
ghost use Rattle.pim_blif.specs.inner.InputMarks.{is_marked};

use pim_io::NoMemory;
use std::alloc::Global;
use std::marker::Model;

/// Which signals are inputs: a mark for each signal up to some number.
#[derive(Debug, Drop)]
pub(crate) struct InputMarks {
    marks: Vec<bool>,
}

impl Model for InputMarks {
    ghost use Rattle.std.specs.Prelude.{◌≤◌, Bool, List, length};
    ghost use Rattle.pim_net.specs.declared.limits.TheConstants.{MAX_SIGNALS};

    ghost Value = { List Bool };

    ghost view = { λ m. m.marks.items };

    ghost invariant = { λ m. length m.marks.items ≤ MAX_SIGNALS };
}

impl InputMarks {
    /// No signal is marked. It takes no memory.
    pub(crate) fn new(alloc: Global) -> InputMarks
        ensures { result ≡ [] }
    {
        InputMarks {
            marks: Vec::new(alloc),
        }
    }

    /// Whether a signal is marked.
    pub(crate) fn is_marked(&self, sig: u32) -> bool
        ensures { result ≡ is_marked self.now sig }
    {
        self.marks.get(sig as usize).copied().unwrap_or(false)
    }

    /// Makes room for the mark of a signal; no signal is marked by it.
    pub(crate) fn make_room(&mut self, sig: u32) -> Result<(), NoMemory>
        requires { sig < MAX_SIGNALS }
        ensures room { OnOk result (sig < length self.new) }
        ensures within { length self.new ≤ MAX_SIGNALS }
        ensures same { (s : ℕ) → is_marked self.new s ≡ is_marked self.old s }
        ensures count { count_by (λ mark. mark) self.new ≡ count_by (λ mark. mark) self.old }
    {
        let count = sig as usize + 1;
        if self.marks.len() < count {
            self.marks.resize(count, false)?;
        }
        Ok(())
    }

    /// Marks a signal that has room.
    pub(crate) fn mark(&mut self, sig: u32)
        requires { sig < length self.old }
        ensures { self.new ≡ slice_set self.old sig true }
    {
        self.marks[sig as usize] = true;
    }
}
