ghost use Rattle.std.specs.Prelude.{◌≡◌, ◌+◌, ◌*◌, ◌^◌, ◌<◌, All, length, IfOk};
ghost use Rattle.pim_aig.specs.Graph.{IsOfFirst};
ghost use Rattle.pim_aig.specs.Moving.{kept, moved};

use crate::Lit;
use pim_io::NoMemory;
use std::alloc::Global;

/// The literal of an old one in a new graph, where the old nodes have these. Constant time.
pub fn moved(lits: &[Lit], literal: Lit) -> Lit
    requires { literal.0 < 2 * length lits.now }
    ensures { result ≡ moved lits.now literal }
{
    let lit = lits[literal.node() as usize];
    if literal.0 % 2 == 1 {
        lit.complement()
    } else {
        lit
    }
}

/// The plain literals of the constant and so many inputs.
pub fn plain_literals(alloc: Global, inputs: u32) -> Result<Vec<Lit>, NoMemory>
    requires { inputs < 2 ^ 30 }
    ensures literals { IfOk result (λ lits. lits.items ≡ kept inputs) }
    ensures there { IfOk result (λ lits. All (IsOfFirst (1 + inputs)) lits.items) }
    ensures count { IfOk result (λ lits. length lits.items ≡ 1 + inputs) }
{
    let mut lits = Vec::new(alloc);
    for node in 0..1 + inputs {
        lits.push(Lit::plain(node))?;
    }
    Ok(lits)
}
