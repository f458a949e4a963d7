ghost use Rattle.std.specs.Prelude.{◌≡◌, ◌≤◌, [], length, IfOk, IfSome, IfNone, OnErr};
ghost use Rattle.pim_net.specs.Labels.{IsName};
ghost use Rattle.pim_blif.specs.Signals.{name_of, with_name};
ghost use Rattle.pim_blif.specs.inner.Reading.{number_below};

use indexmap::IndexSet;
use pim_io::NoMemory;
use pim_net::MAX_SIGNALS;
use std::alloc::Global;
use std::marker::Model;

/// How many bytes a file is likely to have for each name: the statement that drives the signal.
const NAME_SPAN: usize = 32;

/// The distinct names of a file, in the order of their first coming: a name has the number of its place. It holds slices of
/// the file, and copies nothing.
#[derive(Drop)]
pub(crate) struct NameTable<'a> {
    names: IndexSet<&'a [u8]>,
}

impl<'a> Model for NameTable<'a> {
    ghost use Rattle.std.specs.Prelude.{ℕ, ◌≤◌, List, All, length};
    ghost use Rattle.pim_net.specs.Labels.{IsName};
    ghost use Rattle.pim_net.specs.declared.limits.TheConstants.{MAX_SIGNALS};
    ghost use Rattle.pim_blif.specs.inner.Reading.{texts};

    ghost Value = { List (List ℕ) };

    ghost view = { λ t. texts t.names.keys };

    ghost invariant = { λ t. All IsName (texts t.names.keys) × (length t.names.keys ≤ MAX_SIGNALS) };
}

impl<'a> NameTable<'a> {
    /// No names, with room for as many as a file of this length is likely to have, so that the table is seldom moved.
    pub(crate) fn new(alloc: Global, file_len: usize) -> Result<NameTable<'a>, NoMemory>
        ensures { IfOk result (λ names. names ≡ []) }
    {
        let room = (file_len / NAME_SPAN).min(MAX_SIGNALS as usize);
        Ok(NameTable {
            names: IndexSet::with_capacity(alloc, room)?,
        })
    }

    /// The number of a name of 1 to `MAX_NAME` bytes, which is appended where it is new; `None` where it is new and there
    /// are `MAX_SIGNALS` names. Expected constant time, beside the length of the name, which is hashed once. After `None` and
    /// after a refusal the names are as before.
    pub(crate) fn number(&mut self, name: &'a [u8]) -> Result<Option<u32>, NoMemory>
        requires { IsName name.now }
        ensures number { IfOk result (λ number. number ≡ number_below MAX_SIGNALS self.old name.now) }
        ensures names { IfOk result (λ number. IfSome number (λ _. self.new ≡ with_name self.old name.now)) }
        ensures full { IfOk result (λ number. IfNone number (self.new ≡ self.old)) }
        ensures err { OnErr result (self.new ≡ self.old) }
        ensures within { length self.old ≤ MAX_SIGNALS }
    {
        let (place, _) = self.names.insert_full(name)?;
        if place >= MAX_SIGNALS as usize {
            self.names.pop();
            return Ok(None);
        }
        Ok(Some(place as u32))
    }

    /// The name of a number, and a question mark where there is none.
    pub(crate) fn name(&self, number: u32) -> &[u8]
        ensures name { result.now ≡ name_of self.now number }
        ensures bytes { IsName result.now }
    {
        match self.names.get_index(number as usize) {
            Some(name) => *name,
            None => b"?",
        }
    }
}
