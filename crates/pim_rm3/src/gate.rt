ghost use Rattle.std.specs.Prelude.{◌≡◌, ◌*◌, ◌<◌};
ghost use Rattle.pim_aig.specs.Graph.{nodes};
ghost use Rattle.pim_rm3.specs.Gates.{gate_of};
ghost use Rattle.pim_rm3.specs.inner.Reading.{ReadsBelow};

use pim_aig::{Aig, Lit};

/// What a literal of a graph is as a gate.
#[derive(Clone, Copy, Debug, PartialEq, Eq)]
pub(crate) enum Gate {
    /// A constant.
    Constant(bool),

    /// An input, which stands in a cell from the start.
    Input,

    /// The complement of this plain literal.
    Not(Lit),

    /// The AND of two literals.
    And(Lit, Lit),
}

/// What the literal of a number is as a gate.
pub(crate) fn gate_of(aig: &Aig, literal: u32) -> Gate
    requires { literal < 2 * nodes aig.now }
    ensures gate { result ≡ gate_of aig.now literal }
    ensures below { ReadsBelow literal result }
{
    let node = literal / 2;
    if node == 0 {
        return Gate::Constant(literal == 1);
    }
    if literal % 2 == 1 {
        return Gate::Not(Lit(literal - 1));
    }
    if node <= aig.inputs() {
        return Gate::Input;
    }
    let and = aig.ands()[(node - 1 - aig.inputs()) as usize];
    Gate::And(and.x, and.y)
}
