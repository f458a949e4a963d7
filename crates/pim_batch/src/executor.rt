ghost use Rattle.std.specs.Prelude.{◌≡◌, ◌<◌, ◌≤◌, ◌++◌, ◌∷◌, ◌↔◌, [], Bool, List, length, IsTrue, OnOk, OnErr};
ghost use Rattle.pim_io.specs.Bits.{bits_of};
ghost use Rattle.pim_io.specs.Outside.{Wrote};
ghost use Rattle.pim_vectors.specs.Tiles.{IsVector};
ghost use Rattle.pim_batch.specs.Runners.{Runner, results};

use pim_io::{Sink, SinkFault};

/// What executes rows of bits together: rows are packed one by one, and a line of results is written for each of a tile.
pub trait Executor {
    /// How many bits a row has, how many rows are executed together, and what line a row gives.
    ghost runner: { Self → Runner };

    /// The rows that are packed and not executed yet.
    ghost rows: { Self → List (List Bool) };

    /// Whether no further row can be packed.
    fn is_full(&self) -> bool
        ensures full { IsTrue result ↔ (length (rows self.now) ≡ (runner self.now).tile) }
        ensures within { length (rows self.now) ≤ (runner self.now).tile };

    /// Packs one more row, a line of the characters `0` and `1`.
    fn push(&mut self, line: &[u8])
        requires vector { IsVector (runner self.old).width line.now }
        requires room { length (rows self.old) < (runner self.old).tile }
        ensures pushed { rows self.new ≡ rows self.old ++ bits_of line.now ∷ [] }
        ensures same { runner self.new ≡ runner self.old };

    /// Executes the rows that are packed and writes the line of results of each, in order; none is packed then. After a fault
    /// they are still packed.
    fn flush<K: Sink>(&mut self, output: &mut K) -> Result<(), SinkFault>
        ensures wrote { Wrote result (K.taken output.old) (K.taken output.new) (K.faults output.old) (K.faults output.new)
            (results (runner self.old) (rows self.old)) }
        ensures never_falls { K.faults output.old ≤ K.faults output.new }
        ensures emptied { OnOk result (rows self.new ≡ []) }
        ensures stays { OnErr result (rows self.new ≡ rows self.old) }
        ensures same { runner self.new ≡ runner self.old };
}
