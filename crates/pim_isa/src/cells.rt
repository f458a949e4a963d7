ghost use Rattle.std.specs.Prelude.{◌≡◌, [], ◌∷◌, ◌++◌, OnOk, OnErr};

use pim_io::NoMemory;
use std::alloc::Global;
use std::marker::Model;

/// A list of cell numbers, in order.
#[derive(Debug, Drop)]
pub struct Cells {
    numbers: Vec<u32>,
}

impl Model for Cells {
    ghost use Rattle.std.specs.Prelude.{ℕ, List};

    ghost Value = { List ℕ };

    ghost view = { λ c. c.numbers.items };
}

impl Cells {
    /// The empty list.
    pub fn new(alloc: Global) -> Cells
        ensures { result ≡ [] }
    {
        Cells {
            numbers: Vec::new(alloc),
        }
    }

    /// Appends one cell. A call that is refused changes nothing.
    pub fn push(&mut self, cell: u32) -> Result<(), NoMemory>
        ensures ok { OnOk result (self.new ≡ self.old ++ cell ∷ []) }
        ensures err { OnErr result (self.new ≡ self.old) }
    {
        self.numbers.push(cell)?;
        Ok(())
    }

    /// The cells in order.
    pub fn list(&self) -> &[u32]
        ensures { result.now ≡ self.now }
    {
        self.numbers.as_slice()
    }
}
