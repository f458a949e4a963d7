ghost use Rattle.std.specs.Prelude.{◌≡◌, ◌∷◌, ◌+◌, List, All, Some, length, IfErr, IfOk, IfSome};
ghost use Rattle.pim_aig.specs.Chains.{chain, chain_from};
ghost use Rattle.pim_aig.specs.Faults.{Says};
ghost use Rattle.pim_aig.specs.Graph.{IsOfFirst, nodes};
ghost use Rattle.pim_aig.specs.inner.Growing.{Grows};

use crate::{Aig, FlatFault, Lit, MAX_ANDS};

/// Joins a literal to a chain: the first one stays as it is, and each further one makes an AND node.
pub(crate) fn link(aig: &mut Aig, last: Option<Lit>, literal: Lit) -> Result<Lit, FlatFault>
    requires last_there { IfSome last (IsOfFirst (nodes aig.old)) }
    requires literal_there { IsOfFirst (nodes aig.old) literal }
    ensures made { IfOk result (λ next. (rest : List Lit) →
        chain_from aig.new.inputs aig.new.ands (Some next) rest ≡ chain_from aig.old.inputs aig.old.ands last (literal ∷ rest)) }
    ensures there { IfOk result (IsOfFirst (nodes aig.new)) }
    ensures grown { Grows aig.old aig.new }
    ensures fault { IfErr result (λ fault. (rest : List Lit) →
        Says fault (length (chain_from aig.old.inputs aig.old.ands last (literal ∷ rest)).ands)) }
{
    match last {
        None => Ok(literal),
        Some(last) => {
            if aig.ands().len() as u32 == MAX_ANDS {
                return Err(FlatFault::TooLarge);
            }
            Ok(aig.and(last, literal)?)
        }
    }
}

/// The chain of some literals. Linear in them.
pub(crate) fn chain(aig: &mut Aig, literals: &[Lit]) -> Result<Lit, FlatFault>
    requires { All (IsOfFirst (nodes aig.old)) literals.now }
    ensures made { IfOk result (λ l. record { ands = aig.new.ands; lit = l } ≡ chain aig.old.inputs aig.old.ands literals.now) }
    ensures there { IfOk result (IsOfFirst (nodes aig.new)) }
    ensures grown { Grows aig.old aig.new }
    ensures fault { IfErr result (λ fault. Says fault (length (chain aig.old.inputs aig.old.ands literals.now).ands)) }
{
    let mut last = None;
    for literal in literals {
        last = Some(link(aig, last, *literal)?);
    }
    Ok(last.unwrap_or(Lit::TRUE))
}
