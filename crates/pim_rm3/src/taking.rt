ghost use Rattle.std.specs.Prelude.{◌≡◌, ◌<◌, length};
ghost use Rattle.pim_graph.specs.Orders.{order};
ghost use Rattle.pim_graph.specs.Readers.{CountsReads};
ghost use Rattle.pim_rm3.specs.Taking.{can_be_taken};

use pim_aig::Lit;
use pim_graph::{Graph, Readers};

/// Whether the literal is the plain one of a node above the inputs that is no root and that is read once, so that its
/// reader can take its cell over.
pub(crate) fn can_be_taken(inputs: u32, graph: &Graph, readers: &Readers, literal: Lit) -> bool
    requires readers { CountsReads graph.now (order graph.now) readers.now }
    requires there { literal.0 < length graph.now.kids }
    ensures { result ≡ can_be_taken inputs graph.now literal.0 }
{
    literal.0 % 2 == 0
        && inputs < literal.0 / 2
        && !graph.is_root(literal.0)
        && readers.is_last(literal.0)
}
