ghost use Rattle.std.specs.Prelude.{◌≡◌, ◌≤◌, length, IfErr, IfOk, OnOk};
ghost use Rattle.pim_aig.specs.Flat.{ands, flat};
ghost use Rattle.pim_aig.specs.declared.graph.TheConstants.{MAX_ANDS};
ghost use Rattle.pim_isa.specs.declared.draft.TheConstants.{MAX_CELLS};
ghost use Rattle.pim_imply.specs.Compiled.{IComputes, IsUnfit};
ghost use Rattle.pim_imply.specs.Costs.{impcost, needed_of};

use crate::program::ImplyProgram;
use crate::refusal::ImplyRefusal;
use crate::scheduling::imply;
use pim_aig::flatten;
use pim_net::Net;
use pim_ports::ports_of;
use std::alloc::Global;

/// Compiles a netlist to a program for at most `budget` cells: it is flattened, and the flat graph is scheduled. Input k stands in
/// cell k, and no instruction writes it. Too many nodes come before too few cells. It takes n log n for n gates.
pub fn compile_imply(alloc: Global, net: &Net, budget: u32) -> Result<ImplyProgram, ImplyRefusal>
    requires { budget ≤ MAX_CELLS }
    ensures computes { IfOk result (λ program. IComputes program net.now) }
    ensures cells { IfOk result (λ program. program.cells ≤ budget) }
    ensures needed { IfOk result (λ program. program.cells ≡ needed_of (flat net.now)) }
    ensures cycles { IfOk result (λ program. length program.instrs ≡ impcost (flat net.now)) }
    ensures few { OnOk result (ands net.now ≤ MAX_ANDS) }

    // Too few cells come exactly where the budget is below the cells that are needed.
    ensures refused { IfErr result (IsUnfit net.now budget) }
{
    let aig = flatten(alloc, net)?;
    let ports = ports_of(alloc, net)?;
    let program = imply(alloc, &aig, &ports, budget)?;
    Ok(program)
}
