//! The programs of an adder.
ghost use Rattle.std.specs.Prelude.{◌≡◌, ◌+◌, ◌*◌, ◌≤◌, length, IfOk};
ghost use Rattle.pim_adder.specs.Adders.{adder};
ghost use Rattle.pim_adder.specs.declared.netlist.TheConstants.{MAX_BITS};
ghost use Rattle.pim_compile.specs.Networks.{coarse_need, need};
ghost use Rattle.pim_isa.specs.declared.draft.TheConstants.{MAX_CELLS};
ghost use Rattle.pim_net.specs.Netlist.{draft_of};
ghost use Rattle.pim_bench.specs.Summaries.{IsCompiled};
ghost use Rattle.pim_bench.specs.declared.measuring.TheConstants.{WIDE_CELLS};

use pim_aig::FlatFault;
use pim_compile::{Level, Refusal, compile, need};
use pim_io::NoMemory;
use pim_isa::{Program, Target};
use pim_net::Net;
use std::alloc::Global;

/// How many cells an adder needs. An adder has few AND nodes, so the only error is `NoMemory`.
pub(crate) fn needed(alloc: Global, net: &Net, bits: u32, target: Target) -> Result<u32, NoMemory>
    requires few { bits ≤ MAX_BITS }
    requires adder { draft_of net.now ≡ adder bits }
    ensures need { IfOk result (λ cells. cells ≡ need net.now target) }
    ensures most { IfOk result (λ cells. cells ≤ WIDE_CELLS) }
    ensures coarse { IfOk result (λ cells. coarse_need net.now target ≤ WIDE_CELLS) }
{
    match need(alloc, net, target) {
        Ok(cells) => Ok(cells),
        Err(FlatFault::TooLarge) => unreachable!(),
        Err(FlatFault::NoMemory) => Err(NoMemory),
    }
}

/// The program of an adder, for a budget that is enough. The only error is `NoMemory`.
pub(crate) fn compiled(
    alloc: Global,
    net: &Net,
    bits: u32,
    target: Target,
    budget: u32,
) -> Result<Program, NoMemory>
    requires few { bits ≤ MAX_BITS }
    requires adder { draft_of net.now ≡ adder bits }
    requires within { budget ≤ MAX_CELLS }
    requires enough { need net.now target ≤ budget }
    ensures compiled { IfOk result (IsCompiled net.now target budget) }
    ensures inputs { IfOk result (λ program. length program.inputs ≡ 2 * bits + 1) }
    ensures outputs { IfOk result (λ program. length program.outputs ≡ bits + 1) }
{
    match compile(alloc, net, target, Level::Zero, budget) {
        Ok(program) => Ok(program),
        Err(Refusal::TooFewCells { .. }) => unreachable!(),
        Err(Refusal::TooLarge) => unreachable!(),
        Err(Refusal::NoMemory) => Err(NoMemory),
    }
}
