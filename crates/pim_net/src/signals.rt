ghost use Rattle.std.specs.Prelude.{◌≡◌};

use std::marker::Model;

/// A list of signal numbers, as the evidence of a cycle.
#[derive(Debug, Drop)]
pub struct Signals {
    list: Vec<u32>,
}

impl Model for Signals {
    ghost use Rattle.std.specs.Prelude.{ℕ, List};

    ghost Value = { List ℕ };

    ghost view = { λ s. s.list.items };
}

impl Signals {
    /// The signals of a list.
    pub(crate) fn new(list: Vec<u32>) -> Signals
        ensures { result ≡ list.items }
    {
        Signals { list }
    }

    /// The signal numbers, in order.
    pub fn list(&self) -> &[u32]
        ensures { result.now ≡ self.now }
    {
        self.list.as_slice()
    }
}
