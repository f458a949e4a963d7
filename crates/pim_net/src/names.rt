ghost use Rattle.std.specs.Prelude.{◌≡◌, ◌<◌, ◌≤◌, ◌+◌, ◌++◌, ◌∷◌, [], length, IfOk, OnOk, OnErr, Some, slice_get};
ghost use Rattle.std.specs.Fmt.{decimal};
ghost use Rattle.pim_io.specs.declared.limits.TheConstants.{MAX_NAME};
ghost use Rattle.pim_io.specs.Names.{label};
ghost use Rattle.pim_net.specs.Labels.{IsName};

use pim_io::{Name, NoMemory};
use std::alloc::Global;
use std::marker::Model;

/// A letter and a number: what an input, an output or a signal is called that has no name.
pub fn numbered(alloc: Global, letter: u8, k: u32) -> Result<Vec<u8>, NoMemory>
    ensures text { IfOk result (λ text. text.items ≡ letter ∷ decimal k) }
    ensures short { IfOk result (λ text. length text.items ≤ MAX_NAME) }
{
    let digits = format!(in alloc; "{k}")?;
    let mut text = Vec::new(alloc);
    text.push(letter)?;
    text.extend_from_slice(digits.as_bytes())?;
    Ok(text)
}

/// Labels of signals, in order.
#[derive(Debug, Drop)]
pub struct Names {
    labels: Vec<Name>,
    alloc: Global,
}

impl Model for Names {
    ghost use Rattle.std.specs.Prelude.{ℕ, List, All};
    ghost use Rattle.pim_net.specs.Labels.{IsName};

    ghost Value = { List (List ℕ) };

    ghost view = { λ n. n.labels.items };

    ghost invariant = { λ n. All IsName n.labels.items };
}

impl Names {
    /// No labels. It takes no memory.
    pub fn new(alloc: Global) -> Names
        ensures { result ≡ [] }
    {
        Names {
            labels: Vec::new(alloc),
            alloc,
        }
    }

    /// Appends the label of a name of 1 to `MAX_NAME` bytes. After a refusal the labels are as before.
    pub fn push(&mut self, name: &[u8]) -> Result<(), NoMemory>
        requires { IsName name.now }
        ensures ok { OnOk result (self.new ≡ self.old ++ label name.now ∷ []) }
        ensures err { OnErr result (self.new ≡ self.old) }
    {
        let label = Name::label(self.alloc, name)?;
        self.labels.push(label)?;
        Ok(())
    }

    /// Label k: 1 to `MAX_NAME` bytes.
    pub fn get(&self, k: u32) -> &[u8]
        requires { k < length self.now }
        ensures label { slice_get self.now k ≡ Some result.now }
        ensures bytes { IsName result.now }
        ensures same { label result.now ≡ result.now }
    {
        self.labels[k as usize].bytes()
    }

    /// All labels.
    pub fn list(&self) -> &[Name]
        ensures { result.now ≡ self.now }
    {
        self.labels.as_slice()
    }
}
