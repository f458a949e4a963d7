ghost use Rattle.std.specs.Prelude.{◌≡◌, ◌<◌, ◌≤◌, ◌↔◌, length, IfOk, IsTrue};
ghost use Rattle.std.specs.List.{list_all};
ghost use Rattle.pim_io.specs.Names.{label, label_byte, IsShown, IsLabel, is_shown, is_label};

use crate::{MAX_NAME, NoMemory};
use std::alloc::Global;
use std::marker::Model;

/// The label of a signal, as it is printed: 1 to `MAX_NAME` bytes, none of them below 32 or 127.
#[derive(Debug, Drop)]
pub struct Name {
    bytes: Vec<u8>,
}

impl Model for Name {
    ghost use Rattle.std.specs.Prelude.{ℕ, List};
    ghost use Rattle.pim_io.specs.Names.{IsLabel};

    ghost Value = { List ℕ };

    ghost view = { λ n. n.bytes.items };

    ghost invariant = { λ n. IsLabel n.bytes.items };
}

impl Name {
    /// The label of a name: the bytes below 32 and the bytes 127 are replaced by `?`. Linear in the length.
    pub fn label(alloc: Global, bytes: &[u8]) -> Result<Name, NoMemory>
        requires some { 0 < length bytes.now }
        requires short { length bytes.now ≤ MAX_NAME }
        ensures value { IfOk result (λ name. name ≡ label bytes.now) }
        ensures labels { IfOk result IsLabel }
        ensures kept { IfOk result (λ name. IsLabel bytes.now → name ≡ bytes.now) }
    {
        let bytes = shown(alloc, bytes)?;
        Ok(Name { bytes })
    }

    /// The bytes of the label.
    pub fn bytes(&self) -> &[u8]
        ensures value { result.now ≡ self.now }
        ensures labels { IsLabel self.now }
        ensures same { label self.now ≡ self.now }
    {
        self.bytes.as_slice()
    }
}

/// Whether bytes are a label: 1 to `MAX_NAME` of them, none of them below 32 and none of them 127. Linear in the length.
pub fn is_label(bytes: &[u8]) -> bool
    ensures test { result ≡ is_label bytes.now }
    ensures label { IsTrue result ↔ IsLabel bytes.now }
{
    !bytes.is_empty() && bytes.len() <= MAX_NAME && are_shown(bytes)
}

/// Whether a label may hold each of the bytes.
fn are_shown(bytes: &[u8]) -> bool
    ensures { result ≡ list_all is_shown bytes.now }
{
    bytes.iter().all(|b| is_shown(*b))
}

/// Whether a label may hold a byte.
fn is_shown(b: u8) -> bool
    ensures { result ≡ is_shown b }
{
    b >= 32 && b != 127
}

/// What is printed for the bytes of a name.
fn shown(alloc: Global, bytes: &[u8]) -> Result<Vec<u8>, NoMemory>
    ensures { IfOk result (λ v. v.items ≡ label bytes.now) }
{
    Ok(bytes.iter().map(|b| label_byte(*b)).collect(alloc)?)
}

/// What is printed for one byte of a name.
fn label_byte(b: u8) -> u8
    ensures { result ≡ label_byte b }
{
    if b < 32 || b == 127 { b'?' } else { b }
}
