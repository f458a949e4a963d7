ghost use Rattle.std.specs.Prelude.{◌≡◌, ◌<◌, ◌≤◌, ◌↔◌, ℕ, Bool, List, length, map, IsTrue, IfOk, OnOk};
ghost use Rattle.pim_aig.specs.Values.{aval};
ghost use Rattle.pim_nor.specs.Lowered.{nors};
ghost use Rattle.pim_nor.specs.Network.{nor_count};
ghost use Rattle.pim_nor.specs.Reaching.{IsSlotReached, is_kept};
ghost use Rattle.pim_nor.specs.Values.{out_values};
ghost use Rattle.pim_nor.specs.declared.lowering.Width.TheVariants as width_is;

use crate::NorNet;
use crate::kept::Kept;
use crate::plan::Plan;
use crate::reach::reached;
use pim_aig::Aig;
use pim_io::NoMemory;
use std::alloc::Global;

/// How many operands a gate may have.
#[derive(Clone, Copy, Debug, PartialEq, Eq)]
pub enum Width {
    /// Gates of one or two operands.
    Two,
    /// Gates of one to four operands.
    Four,
}

/// The network of the gates that the outputs of a graph reach, each of at most so many operands. It has two gates for each
/// AND node at most: the NOR of the complements of its leaves, and the NOT of that. At width four an operand that is the
/// plain literal of a node which nothing else reads gives way to that node's operands, while the leaves are fewer than four.
/// Linear in the graph. The only error is `NoMemory`.
pub fn lower(alloc: Global, aig: &Aig, width: Width) -> Result<NorNet, NoMemory>
    ensures network { IfOk result (λ network. network ≡ nors aig.now width) }
    ensures values { IfOk result (λ network. (bits : List Bool) → length bits ≡ aig.now.inputs →
        out_values network bits ≡ map (aval aig.now bits) aig.now.outputs) }

    // Of all gates that the graph can need, it has exactly those that the outputs reach.
    ensures reached { OnOk result ((slot : ℕ) →
        IsTrue (is_kept aig.now width slot) ↔ IsSlotReached aig.now width slot) }

    // At width four there are no more NORs than at width two.
    ensures no_more { OnOk result
        (nor_count (nors aig.now width_is.Four).gates ≤ nor_count (nors aig.now width_is.Two).gates) }
{
    aig.has_values();
    let inputs = aig.inputs();
    let plan = Plan::new(alloc, aig, width)?;
    let kept = Kept::of(alloc, reached(alloc, &plan)?)?;
    let gates = kept.gates(alloc, &plan)?;
    let outs = kept.outs(alloc, &plan)?;
    let network = NorNet::new(alloc, inputs, gates, outs)?;
    Ok(network)
}
