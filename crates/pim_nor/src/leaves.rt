ghost use Rattle.std.specs.Prelude.{◌≡◌, ◌≤◌, ◌∷◌, []};
ghost use Rattle.pim_aig.specs.Literals.{complement};
ghost use Rattle.pim_aig.specs.declared.graph.TheConstants.{MAX_INPUTS};
ghost use Rattle.pim_nor.specs.Leaves.{distinct};
ghost use Rattle.pim_nor.specs.Named.{nor_of_leaves, source};
ghost use Rattle.pim_nor.specs.inner.Plans.{leaf_literals};

use crate::slots::source;
use crate::{Gate, Pin};
use pim_aig::Lit;

/// Two to four literals whose conjunction is a node's value.
#[derive(Clone, Copy)]
pub(crate) enum Leaves {
    Two(Lit, Lit),
    Three(Lit, Lit, Lit),
    Four(Lit, Lit, Lit, Lit),
}

impl Leaves {
    /// The NOR of their complements, where one that repeats an earlier one is read once.
    #[inline(always)]
    pub(crate) fn nor(self, inputs: u32) -> Gate
        requires { inputs ≤ MAX_INPUTS }
        ensures { result ≡ nor_of_leaves inputs (distinct (leaf_literals self)) }
    {
        match self {
            Leaves::Two(x, y) => nor_of_two(inputs, x, y),
            Leaves::Three(x, y, z) => nor_of_three(inputs, x, y, z),
            Leaves::Four(x, y, z, w) => nor_of_four(inputs, x, y, z, w),
        }
    }
}

/// What is read for a literal: its complement.
#[inline(always)]
fn operand(inputs: u32, literal: Lit) -> Pin
    requires { inputs ≤ MAX_INPUTS }
    ensures { result ≡ source inputs (complement literal) }
{
    source(inputs, literal.complement())
}

/// The NOR of the complements of two literals. They are seldom the same.
#[inline(always)]
fn nor_of_two(inputs: u32, x: Lit, y: Lit) -> Gate
    requires { inputs ≤ MAX_INPUTS }
    ensures { result ≡ nor_of_leaves inputs (distinct (x ∷ y ∷ [])) }
{
    if x == y {
        return nor_of_leaves(inputs, &[x, y]);
    }
    Gate::Nor(operand(inputs, x), operand(inputs, y))
}

/// The NOR of the complements of three literals. Seldom two of them are the same.
#[inline(always)]
fn nor_of_three(inputs: u32, x: Lit, y: Lit, z: Lit) -> Gate
    requires { inputs ≤ MAX_INPUTS }
    ensures { result ≡ nor_of_leaves inputs (distinct (x ∷ y ∷ z ∷ [])) }
{
    if x == y || x == z || y == z {
        return nor_of_leaves(inputs, &[x, y, z]);
    }
    Gate::Nor3(operand(inputs, x), operand(inputs, y), operand(inputs, z))
}

/// The NOR of the complements of four literals. Seldom two of them are the same.
#[inline(always)]
fn nor_of_four(inputs: u32, x: Lit, y: Lit, z: Lit, w: Lit) -> Gate
    requires { inputs ≤ MAX_INPUTS }
    ensures { result ≡ nor_of_leaves inputs (distinct (x ∷ y ∷ z ∷ w ∷ [])) }
{
    if x == y || x == z || x == w || y == z || y == w || z == w {
        return nor_of_leaves(inputs, &[x, y, z, w]);
    }
    Gate::Nor4(
        operand(inputs, x),
        operand(inputs, y),
        operand(inputs, z),
        operand(inputs, w),
    )
}

/// The NOR of the complements of these literals, of which one that repeats an earlier one is dropped.
fn nor_of_leaves(inputs: u32, literals: &[Lit]) -> Gate
    requires { inputs ≤ MAX_INPUTS }
    ensures { result ≡ nor_of_leaves inputs (distinct literals.now) }
{
    let mut gate = Gate::One;
    for (k, literal) in literals.iter().enumerate() {
        if !literals[..k].contains(literal) {
            gate = gate.reading(operand(inputs, *literal));
        }
    }
    gate
}
