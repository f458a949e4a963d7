ghost use Rattle.std.specs.Prelude.{◌≡◌, ◌+◌, ◌<◌, ◌≤◌, length, Some, None, if◌then◌else◌, IfOk};
ghost use Rattle.pim_nor.specs.Leaves.{and_at, gives_way, is_single, leaves, widened};
ghost use Rattle.pim_nor.specs.Named.{gate_at, nor_of_leaves, slots};
ghost use Rattle.pim_nor.specs.Network.{ReadsFirst};
ghost use Rattle.pim_nor.specs.inner.Plans.{TellsSingle, leaf_literals};
ghost use Rattle.pim_aig.specs.Graph.{IsAig, nodes};
ghost use Rattle.pim_aig.specs.Literals.{node};
ghost use Rattle.pim_nor.specs.declared.lowering.Width.TheVariants as width_is;

use crate::leaves::Leaves;
use crate::singles::singles;
use crate::slots::{literal_at, source};
use crate::{Gate, Width};
use pim_aig::{Aig, And, Lit};
use pim_io::NoMemory;
use std::alloc::Global;
use std::marker::Model;

/// The gates that a graph can need: two for the constant, one for each input and two for each AND node. Each has a slot.
#[derive(Drop)]
pub(crate) struct Plan<'a> {
    aig: &'a Aig,
    width: Width,
    counts: Vec<u32>,
}

impl<'a> Model for Plan<'a> {
    ghost use Rattle.std.specs.Prelude.{◌≡◌};
    ghost use Rattle.pim_aig.specs.Graph.{IsAig};
    ghost use Rattle.pim_nor.specs.inner.Plans.{PlanView, TellsSingle};
    ghost use Rattle.pim_nor.specs.declared.lowering.Width.TheVariants.{Four};

    ghost Value = { PlanView };

    ghost view = { λ p. record { graph = p.aig.now; width = p.width } };

    ghost invariant = { λ p. p.width ≡ Four → TellsSingle p.aig.now p.counts.items };
}

impl<'a> Plan<'a> {
    /// The gates of a graph at a width. Linear in the graph.
    pub(crate) fn new(alloc: Global, aig: &'a Aig, width: Width) -> Result<Plan<'a>, NoMemory>
        ensures { IfOk result (λ plan. plan ≡ record { graph = aig.now; width = width }) }
    {
        let counts = counts(alloc, aig, width)?;
        Ok(Plan { aig, width, counts })
    }

    /// The graph that is lowered.
    pub(crate) fn aig(&self) -> &'a Aig
        ensures { result.now ≡ self.now.graph }
    {
        self.aig
    }

    /// How many slots there are.
    pub(crate) fn slots(&self) -> u32
        ensures { result ≡ slots self.now.graph }
    {
        2 + self.aig.inputs() + 2 * self.aig.ands().len() as u32
    }

    /// Whether a node is single: an operand of AND nodes once in all, and no output's.
    fn is_single(&self, node: u32) -> bool
        requires { self.now.width ≡ width_is.Four }
        ensures { result ≡ is_single self.now.graph node }
    {
        self.counts.get(node as usize).copied().unwrap_or(0) == 1
    }

    /// Whether a literal is the plain literal of a single AND node.
    fn gives_way(&self, literal: Lit) -> bool
        requires { self.now.width ≡ width_is.Four }
        ensures gives_way { result ≡ gives_way self.now.graph literal }
        ensures sound { IsAig self.now.graph }
    {
        let inputs = self.aig.inputs();
        let node = literal.node();
        literal.0 % 2 == 0 && inputs < node && self.is_single(node)
    }

    /// The AND node of a number.
    fn and_at(&self, node: u32) -> And
        requires above { self.now.graph.inputs < node }
        requires there { node < nodes self.now.graph }
        ensures { result ≡ and_at self.now.graph node }
    {
        self.aig.ands()[(node - 1 - self.aig.inputs()) as usize]
    }

    /// The AND node whose operands a literal gives way to, if it does.
    fn opened(&self, literal: Lit) -> Option<And>
        requires { self.now.width ≡ width_is.Four }
        ensures { result ≡ (if gives_way self.now.graph literal
            then Some (and_at self.now.graph (node literal)) else None) }
    {
        if self.gives_way(literal) {
            Some(self.and_at(literal.node()))
        } else {
            None
        }
    }

    /// The leaves with the first that gives way replaced, in its place, by its node's operands.
    fn widened(&self, leaves: Leaves) -> Leaves
        requires wide { self.now.width ≡ width_is.Four }
        requires few { length (leaf_literals leaves) < 4 }
        ensures leaves { leaf_literals result ≡ widened self.now.graph (leaf_literals leaves) }
        ensures few { length (leaf_literals result) ≤ length (leaf_literals leaves) + 1 }
    {
        match leaves {
            Leaves::Two(first, second) => {
                if let Some(and) = self.opened(first) {
                    Leaves::Three(and.x, and.y, second)
                } else if let Some(and) = self.opened(second) {
                    Leaves::Three(first, and.x, and.y)
                } else {
                    leaves
                }
            }
            Leaves::Three(x, y, z) => {
                if let Some(and) = self.opened(x) {
                    Leaves::Four(and.x, and.y, y, z)
                } else if let Some(and) = self.opened(y) {
                    Leaves::Four(x, and.x, and.y, z)
                } else if let Some(and) = self.opened(z) {
                    Leaves::Four(x, y, and.x, and.y)
                } else {
                    leaves
                }
            }
            Leaves::Four(..) => leaves,
        }
    }

    /// The gate of an AND node's value: the NOR of its leaves' complements.
    #[inline(always)]
    fn and_gate(&self, node: u32) -> Gate
        requires above { self.now.graph.inputs < node }
        requires there { node < nodes self.now.graph }
        ensures { result ≡ nor_of_leaves self.now.graph.inputs (leaves self.now.graph self.now.width node) }
    {
        let and = self.and_at(node);
        let operands = Leaves::Two(and.x, and.y);
        match self.width {
            Width::Two => operands.nor(self.aig.inputs()),
            Width::Four => self.widened(self.widened(operands)).nor(self.aig.inputs()),
        }
    }

    /// The gate of a slot: a complement is the NOT of what it complements, an AND node's value the NOR of its leaves'
    /// complements, and the constant one reads nothing.
    #[inline(always)]
    pub(crate) fn gate_at(&self, slot: u32) -> Gate
        requires { slot < slots self.now.graph }
        ensures gate { result ≡ gate_at self.now.graph (leaves self.now.graph self.now.width) slot }
        ensures before { ReadsFirst self.now.graph.inputs slot result }
    {
        let inputs = self.aig.inputs();
        let literal = literal_at(inputs, slot);
        if literal == Lit::TRUE {
            Gate::One
        } else if literal == Lit::FALSE || literal.is_complemented() {
            Gate::Not(source(inputs, literal.complement()))
        } else {
            self.and_gate(literal.node())
        }
    }
}

/// The numbers that tell the single nodes, which only gates of four operands need.
fn counts(alloc: Global, aig: &Aig, width: Width) -> Result<Vec<u32>, NoMemory>
    ensures { IfOk result (λ counts. width ≡ width_is.Four → TellsSingle aig.now counts.items) }
{
    match width {
        Width::Two => Ok(Vec::new(alloc)),
        Width::Four => singles(alloc, aig),
    }
}
