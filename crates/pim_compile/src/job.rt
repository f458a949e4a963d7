ghost use Rattle.std.specs.Prelude.{◌≡◌, ◌≤◌, length};
ghost use Rattle.pim_isa.specs.declared.draft.TheConstants.{MAX_CELLS};

use pim_aig::Aig;
use pim_isa::Ports;
use std::alloc::Global;

/// What is to be compiled: a graph, with the labels of its ports, to at most `budget` cells.
#[derive(Drop)]
pub(crate) struct Job<'a> {
    pub(crate) alloc: Global,
    pub(crate) aig: &'a Aig,
    pub(crate) ports: &'a Ports,
    pub(crate) budget: u32,
    ghost inputs: { length ports.now.inputs ≡ aig.now.inputs },
    ghost outputs: { length ports.now.outputs ≡ length aig.now.outputs },
    ghost within: { budget ≤ MAX_CELLS },
}
