ghost use Rattle.std.specs.Prelude.{◌≡◌, ◌+◌, ◌*◌, ◌<◌, ◌≤◌};
ghost use Rattle.pim_aig.specs.declared.graph.TheConstants.{MAX_INPUTS};
ghost use Rattle.pim_nor.specs.Named.{literal_at, source};
ghost use Rattle.pim_nor.specs.declared.network.TheConstants.{MAX_GATES};

use crate::Pin;
use pim_aig::Lit;

/// The literal that the gate of a slot has the value of. Slot 0 is true and slot 1 false; then come the complements of
/// the inputs, the last input's first, and for each AND node its value and its complement.
pub(crate) fn literal_at(inputs: u32, slot: u32) -> Lit
    requires inputs_fit { inputs ≤ MAX_INPUTS }
    requires slot_fits { slot ≤ MAX_GATES }
    ensures { result ≡ literal_at inputs slot }
{
    if slot < 2 {
        Lit(1 - slot)
    } else if slot < 2 + inputs {
        Lit(2 * (2 + inputs - slot) + 1)
    } else {
        Lit(slot + inputs)
    }
}

/// The input or the slot that has the value of a literal.
pub(crate) fn source(inputs: u32, literal: Lit) -> Pin
    requires { inputs ≤ MAX_INPUTS }
    ensures { result ≡ source inputs literal }
{
    let node = literal.node();
    if literal.0 < 2 {
        Pin::Gate(1 - literal.0)
    } else if inputs < node {
        Pin::Gate(literal.0 - inputs)
    } else if literal.is_complemented() {
        Pin::Gate(2 + inputs - node)
    } else {
        Pin::Input(node - 1)
    }
}
